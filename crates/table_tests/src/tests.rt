use crate::directory::Directory;
use crate::rows::{Owner, Record};
use crate::tens::Tens;
use base::{Name, ShortText};
use table::{Refused, Table};

fn owner(path: u8, mark: u8) -> Owner {
    Owner { path, mark }
}

#[test]
fn an_empty_table_holds_nothing(rt: HostRuntime) {
    let mut memory = [owner(9, 0); 2];
    let mut owners = Table::empty(&mut memory);
    assert_eq!(rt;
        [
            owners.find(9),
            owners.replace(owner(9, 1)),
            owners.remove(9),
            owners.remove_at(0),
        ],
        [None; 4]
    );
    assert_eq!(rt; (owners.rows().len(), owners.free()), (0, 2));
}

#[test]
fn paths_rise_and_the_full_table_refuses(rt: HostRuntime) {
    let mut memory = [owner(9, 0); 3];
    let mut owners = Table::empty(&mut memory);
    let answers = [
        owners.insert(owner(20, 1)),
        owners.insert(owner(255, 2)),
        owners.insert(owner(0, 3)),
        owners.insert(owner(21, 4)),
        owners.insert(owner(20, 5)),
    ];
    assert_eq!(rt;
        answers,
        [
            Ok(0),
            Ok(1),
            Ok(0),
            Err(Refused::Full),
            Err(Refused::Present(1)),
        ]
    );
    assert_eq!(rt;
        owners.rows(),
        [owner(0, 3), owner(20, 1), owner(255, 2)].as_slice()
    );
    assert_eq!(rt;
        [owners.find(0), owners.find(21), owners.find(255)],
        [Some(owner(0, 3)), None, Some(owner(255, 2))]
    );
}

#[test]
fn a_row_changes_or_goes_and_the_others_stay(rt: HostRuntime) {
    let mut memory = [owner(9, 0); 4];
    let mut owners = Table::empty(&mut memory);
    for path in 1..5 {
        let _ = owners.insert(owner(path, path));
    }
    assert_eq!(rt;
        [
            owners.replace(owner(2, 7)),
            owners.remove(1),
            owners.remove_at(2),
        ],
        [Some(owner(2, 2)), Some(owner(1, 1)), Some(owner(4, 4))]
    );
    assert_eq!(rt; owners.rows(), [owner(2, 7), owner(3, 3)].as_slice());
    assert_eq!(rt; [owners.find(2), owners.find(4)], [Some(owner(2, 7)), None]);
}

fn note(directory: &mut Directory, text: &[u8], mark: u8) -> Option<usize> {
    let name = Name::new(text)?.row();
    directory.note(Record { name, mark }).ok()
}

#[test]
fn names_rise_by_bytes_a_prefix_first(rt: HostRuntime) {
    let mut memory = [Record {
        name: ShortText { bytes: [0; 16] },
        mark: 0,
    }; 4];
    let mut directory = Directory::new(&mut memory);
    let places = [
        note(&mut directory, b"pump-2", 1),
        note(&mut directory, b"bilge", 2),
        note(&mut directory, b"pump", 3),
        note(&mut directory, b"pump", 4),
    ];
    assert_eq!(rt; places, [Some(0), Some(0), Some(1), None]);
    let mut marks = [0u8; 4];
    for (mark, record) in marks.iter_mut().zip(directory.records()) {
        *mark = record.mark;
    }
    assert_eq!(rt; marks, [2, 3, 1, 0]);
}

#[test]
fn keys_that_compare_alike_are_one_key(rt: HostRuntime) {
    let mut memory = [Tens(0); 3];
    let mut table = Table::empty(&mut memory);
    let answers = [
        table.insert(Tens(30)),
        table.insert(Tens(12)),
        table.insert(Tens(17)),
    ];
    assert_eq!(rt; answers, [Ok(0), Ok(0), Err(Refused::Present(0))]);
    assert_eq!(rt;
        [
            table.replace(Tens(19)),
            table.find(Tens(10)),
            table.find(Tens(20)),
        ],
        [Some(Tens(12)), Some(Tens(19)), None]
    );
}

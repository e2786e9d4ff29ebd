use crate::client::{pass_all, replace_all};
use crate::dice::Dice;
use crate::model::Model;
use crate::pass::Pass;
use store::api::Store;
use store::keys::{KEYS, LONGEST, key};
use store::side::Side;

// What came of a run: `refused` counts the puts refused for want of units alone.
#[derive(Clone, Copy)]
pub struct Tally {
    pub calls: u32,
    pub admitted: u32,
    pub refused: u32,
    pub differences: u32,
}

// Past the last block of the longest file.
const PARTS: usize = 10;

// Whether all questions about a key get the model's answers.
fn agrees<S: Store>(store: &S, model: &Model, key: usize) -> bool {
    let file = model.file(key);
    if store.held(key) != file.is_some() || store.length(key) != file.map(|words| words.len()) {
        return false;
    }
    let words = file.unwrap_or_default();
    (0..PARTS).flat_map(|at| store.part(key, at)).eq(words)
}

// Whether they do for every key, and some that are too high.
pub fn all_agree<S: Store>(store: &S, model: &Model) -> bool {
    (0..1030).all(|key| agrees(store, model, key))
}

fn put<S: Store>(store: &mut S, model: &mut Model, dice: &mut Dice, tally: &mut Tally) -> bool {
    let mut words = [0; 40];
    words.fill_with(|| dice.word());
    let len = dice.below(40) as usize;
    let key = dice.key();
    let admitted = store.put(key, &words[..len]);
    if admitted {
        tally.admitted = tally.admitted.saturating_add(1);
    } else if len <= LONGEST && key < KEYS {
        tally.refused = tally.refused.saturating_add(1);
    }
    model.put(key, &words[..len]) == admitted && agrees(store, model, key)
}

// One call, and whether the store then answers as the model does.
fn turn<S: Store>(store: &mut S, model: &mut Model, dice: &mut Dice, tally: &mut Tally) -> bool {
    let from = dice.key();
    let to = dice.key();
    match dice.below(10) {
        0..=3 => put(store, model, dice, tally),
        4..=5 => {
            store.carry(from, to);
            model.carry(from, to);
            agrees(store, model, from) && agrees(store, model, to)
        }
        6..=8 => {
            store.clear(from);
            model.clear(from);
            agrees(store, model, from)
        }
        _ => all_agree(store, model),
    }
}

pub fn drive<S: Store>(store: &mut S, model: &mut Model, calls: u32) -> Tally {
    let mut dice = Dice::new();
    let mut tally = Tally {
        calls,
        admitted: 0,
        refused: 0,
        differences: 0,
    };
    for _ in 0..calls {
        if !turn(store, model, &mut dice, &mut tally) {
            tally.differences = tally.differences.saturating_add(1);
        }
    }
    if !all_agree(store, model) {
        tally.differences = tally.differences.saturating_add(1);
    }
    tally
}

// The client over both outcomes: files that fit replace what is there and what was set aside is discarded; where the
// second does not fit, all is as found.
pub fn rounds<S: Store>(store: &mut S, model: &mut Model) -> bool {
    for k in 0..KEYS {
        store.clear(k);
        model.clear(k);
    }
    let paths = [3, 250];
    let fits = replace_all(store, &paths, &[7, 8, 9]);
    pass_all(store, Pass::Discard, &paths);
    let put = paths
        .iter()
        .all(|path| model.put(key(*path, Side::Place), &[7, 8, 9]));
    if !put || !fits || !all_agree(store, model) {
        return false;
    }
    let many = [1, 3, 4, 5, 6, 7, 8, 9, 250];
    let fits = replace_all(store, &many, &[5; 32]);
    !fits && all_agree(store, model)
}

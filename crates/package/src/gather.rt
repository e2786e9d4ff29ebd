ghost use Rattle.std.specs.Prelude.{◌≡◌, ◌≤◌, ◌++◌, length, take};
ghost use Rattle.std.specs.List.{flat_map};
ghost use Rattle.base.specs.Named.{row_in, row_of};
ghost use Rattle.package.specs.Words.{bytes};

use crate::word::Word;
use arrayvec::ArrayVec;
use base::{Kind, Text};

// The longest text, in bytes.
const LONGEST: usize = 16;

// The bytes that a text word carries, as far as there is room.
fn push_word(gathered: &mut ArrayVec<u8, LONGEST>, word: Word)
    requires { length gathered.old.items ≤ 16 }
    ensures text { gathered.new.items ≡ take 16 (gathered.old.items ++ bytes word.0) }
    ensures fits { length gathered.new.items ≤ 16 }
{
    let n = word.byte_count().min(3);
    let three = word.three_bytes();
    for b in &three[0..n] {
        let _ = gathered.try_push(*b);
    }
}

// The first sixteen bytes of a text.
fn gather(text: &[u32]) -> ArrayVec<u8, LONGEST>
    ensures { result.items ≡ take 16 (flat_map bytes text.now) }
{
    let mut gathered = ArrayVec::new();
    for w in text {
        push_word(&mut gathered, Word(*w));
    }
    gathered
}

// The name, or the version, that a text spells; nothing where its first sixteen bytes are none.
pub fn spelled<K: Kind>(text: &[u32]) -> Option<Text<K>>
    ensures { row_in result ≡ row_of K.KIND (take 16 (flat_map bytes text.now)) }
{
    Text::new(gather(text).as_slice())
}

use arrayvec::ArrayVec;
use std::alloc::{AllocError, Global};

// A file's words, with room for the longest file: so no call of the model can fail for want of memory.
type File = ArrayVec<u32, 32>;

// The plain list: what each key holds, in order. Every question is answered by looking, every sum made anew.
#[derive(Drop)]
pub struct Model {
    files: Vec<Option<File>>,
    block: usize,
    units: usize,
}

impl Model {
    pub fn new(heap: Global, block: usize, units: usize) -> Result<Model, AllocError> {
        let files = vec![in heap; None; 1024]?;
        Ok(Model {
            files,
            block,
            units,
        })
    }

    // The words of the key's file.
    pub fn file(&self, key: usize) -> Option<&[u32]> {
        Some(self.files.get(key)?.as_ref()?.as_slice())
    }

    fn set(&mut self, key: usize, file: Option<File>) {
        if let Some(f) = self.files.get_mut(key) {
            *f = file;
        }
    }

    // One unit for each block begun, and one for no words.
    fn cost(&self, len: usize) -> usize {
        (0..len).step_by(self.block.max(1)).count().max(1)
    }

    // What all other files cost.
    fn others(&self, key: usize) -> usize {
        self.files
            .as_slice()
            .iter()
            .enumerate()
            .filter(|(k, _)| *k != key)
            .filter_map(|(_, file)| file.as_ref())
            .fold(0, |sum, file| sum.saturating_add(self.cost(file.len())))
    }

    pub fn put(&mut self, key: usize, words: &[u32]) -> bool {
        let Ok(file) = File::try_from(words) else {
            return false;
        };
        if key > 1023 || self.others(key).saturating_add(self.cost(words.len())) > self.units {
            return false;
        }
        self.set(key, Some(file));
        true
    }

    pub fn carry(&mut self, from: usize, to: usize) {
        if to > 1023 || from == to {
            return;
        }
        if let Some(file) = self.files.get_mut(from).and_then(Option::take) {
            self.set(to, Some(file));
        }
    }

    pub fn clear(&mut self, key: usize) {
        self.set(key, None);
    }
}

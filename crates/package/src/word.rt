ghost use Rattle.std.specs.Prelude.{◌≡◌};
ghost use Rattle.package.specs.Words.{kind, name_length, version_length, is_head, byte_count, three, is_text, content_length, file_kind, path, is_file, is_end, end_count};

use base::FileKind;

// A package word, by its fields.
#[derive(Clone, Copy)]
pub struct Word(pub u32);

impl Word {
    fn kind(self) -> u32
        ensures { result ≡ kind self.0 }
    {
        self.0 >> 28
    }

    pub fn is_head(self) -> bool
        ensures { result ≡ is_head self.0 }
    {
        self.kind() == 1 && (self.0 >> 16) % (1 << 12) == 0
    }

    pub fn name_length(self) -> usize
        ensures { result ≡ name_length self.0 }
    {
        (self.0 % (1 << 8)) as usize
    }

    pub fn version_length(self) -> usize
        ensures { result ≡ version_length self.0 }
    {
        ((self.0 >> 8) % (1 << 8)) as usize
    }

    pub fn byte_count(self) -> usize
        ensures { result ≡ byte_count self.0 }
    {
        ((self.0 >> 24) % (1 << 4)) as usize
    }

    // The three bytes of a text word, used or not.
    pub fn three_bytes(self) -> [u8; 3]
        ensures { result ≡ three self.0 }
    {
        [
            ((self.0 >> 16) % (1 << 8)) as u8,
            ((self.0 >> 8) % (1 << 8)) as u8,
            (self.0 % (1 << 8)) as u8,
        ]
    }

    // A text word, with nothing in the bytes that it does not use.
    pub fn is_text(self) -> bool
        ensures { result ≡ is_text self.0 }
    {
        let unused = match self.byte_count() {
            0 => self.0 % (1 << 24),
            1 => self.0 % (1 << 16),
            2 => self.0 % (1 << 8),
            _ => 0,
        };
        self.kind() == 2 && unused == 0
    }

    pub fn is_file(self) -> bool
        ensures { result ≡ is_file self.0 }
    {
        (self.kind() == 3 || self.kind() == 4) && (self.0 >> 14) % (1 << 14) == 0
    }

    pub fn file_kind(self) -> FileKind
        ensures { result ≡ file_kind self.0 }
    {
        if self.kind() == 3 {
            FileKind::Plain
        } else {
            FileKind::Conffile
        }
    }

    pub fn content_length(self) -> usize
        ensures { result ≡ content_length self.0 }
    {
        ((self.0 >> 8) % (1 << 6)) as usize
    }

    pub fn path(self) -> u8
        ensures { result ≡ path self.0 }
    {
        (self.0 % (1 << 8)) as u8
    }

    pub fn is_end(self) -> bool
        ensures { result ≡ is_end self.0 }
    {
        self.kind() == 15
    }

    pub fn end_count(self) -> usize
        ensures { result ≡ end_count self.0 }
    {
        (self.0 % (1 << 28)) as usize
    }
}

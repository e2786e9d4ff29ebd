ghost use Rattle.std.specs.Prelude.{◌≡◌};
ghost use Rattle.base.specs.Named.{row_in, text, row_of, row_if};

use crate::kinds::Kind;
use crate::text::Text;
use crate::texts::ShortText;
use std::marker::PhantomData;

impl<K: Kind> Text<K> {
    // The name, or the version, with this text; nothing exactly where the text breaks a rule.
    pub fn new(bytes: &[u8]) -> Option<Self>
        ensures { row_in result ≡ row_of K.KIND bytes.now }
    {
        let row = ShortText::holding(K::KIND, bytes)?;
        Some(Text {
            row,
            kind: PhantomData,
        })
    }

    // The one in a plain row; nothing exactly where the row holds none.
    pub fn from_row(row: ShortText) -> Option<Self>
        ensures { row_in result ≡ row_if K.KIND row }
    {
        let row = row.checked(K::KIND)?;
        Some(Text {
            row,
            kind: PhantomData,
        })
    }

    // The text as a plain row.
    pub fn row(&self) -> ShortText
        ensures { result ≡ self.now.row }
    {
        self.row
    }

    // The bytes of the text.
    pub fn as_bytes(&self) -> &[u8]
        ensures { result.now ≡ text self.now }
    {
        self.row.as_bytes()
    }
}

ghost use Rattle.std.specs.Prelude.{◌≡◌, ◌+◌, ◌<◌, ◌≤◌, false, ◌&&◌, [], length, drop, IfOk, MatchResult};
ghost use Rattle.base.specs.Texts.{fitting};
ghost use Rattle.base.specs.Refusals.{word_refusal};
ghost use Rattle.package.specs.Words.{content_length, name_length};
ghost use Rattle.package.specs.Checks.{nothing, refusal};
ghost use Rattle.package.specs.Items.{Apart, content_refusal, file_handed, Hands, judged, left_from, name_handed, Same, shown, text_refusal, told};

use crate::checks::{head_fault, item_fault, name_lengths, package_lengths};
use crate::files::File;
use crate::items::{Item, Items, Stage, Step};
use crate::rules::TextRule;
use crate::texts::skip_text;
use crate::word::Word;
use base::{FileKind, Reason, Refusal, TextKind};

impl<'a> Items<'a> {
    // The items of a package.
    pub fn of_package(words: &'a [u32]) -> Items<'a>
        ensures { (result.words.now ≡ words.now) × (result.place ≡ 0) × (result.stage ≡ Stage.Package) }
    {
        Items::from_start(words, Stage::Package)
    }

    // The one item of a name alone.
    pub fn of_name(words: &'a [u32]) -> Items<'a>
        ensures { (result.words.now ≡ words.now) × (result.place ≡ 0) × (result.stage ≡ Stage.NameAlone) }
    {
        Items::from_start(words, Stage::NameAlone)
    }

    fn from_start(words: &'a [u32], stage: Stage) -> Items<'a>
        ensures { (result.words.now ≡ words.now) × (result.place ≡ 0) × (result.stage ≡ stage) }
    {
        Items {
            words,
            place: 0,
            stage,
        }
    }

    // The words from the reader's place on.
    fn remaining(&self) -> &'a [u32]
        ensures { result.now ≡ left_from self.now }
    {
        if self.place >= self.words.len() {
            return &[];
        }
        &self.words[self.place..]
    }

    // The first word from here on, and the rest.
    fn apart(&self) -> Result<(Word, &'a [u32]), Refusal>
        ensures { MatchResult result (λ p. Apart self.now.words.now self.now.place p.0.0 p.1.now) (λ e. (left_from self.now ≡ []) × (e ≡ word_refusal Reason.EndsEarly self.now.place)) }
    {
        let [first, rest @ ..] = self.remaining() else {
            return Err(Refusal::in_words(Reason::EndsEarly, self.place));
        };
        Ok((Word(*first), rest))
    }

    // The name behind a head word.
    fn named(&self, head: Word, rest: &'a [u32], stage: Stage) -> Result<Step<'a>, Refusal>
        requires { Apart self.now.words.now self.now.place head.0 rest.now }
        ensures item { shown result ≡ judged (text_refusal (TextRule.Spelled TextKind.Name) (name_length head.0) false (self.now.place + 1) rest.now) (name_handed stage self.now.place head.0 rest.now) }
        ensures same { Same self.now.words.now result }
    {
        let place = self.place + 1;
        let behind = skip_text(
            self.words,
            place,
            TextRule::Spelled(TextKind::Name),
            head.name_length(),
            false,
        )?;
        let text = &rest[0..behind - place];
        let rest = Items {
            words: self.words,
            place: behind,
            stage,
        };
        Ok(Step {
            item: Item::Name(text),
            place,
            rest,
        })
    }

    // The head of a package and its name. What it shares with a name alone is `named`; one function for both would read a
    // flag twice, for the lengths and for what is due behind the name.
    fn package_name(&self) -> Result<Step<'a>, Refusal>
        ensures item { Hands self.now Stage.Package result }
        ensures same { Same self.now.words.now result }
    {
        let (head, rest) = self.apart()?;
        if let Some(reason) = head_fault(package_lengths(head), head) {
            return Err(Refusal::in_words(reason, self.place));
        }
        self.named(head, rest, Stage::Version(head.version_length()))
    }

    // The head of a name alone, and the name.
    fn lone_name(&self) -> Result<Step<'a>, Refusal>
        ensures item { Hands self.now Stage.NameAlone result }
        ensures same { Same self.now.words.now result }
    {
        let (head, rest) = self.apart()?;
        if let Some(reason) = head_fault(name_lengths(head), head) {
            return Err(Refusal::in_words(reason, self.place));
        }
        self.named(head, rest, Stage::Done)
    }

    // The version, whose length the head gave.
    fn version(&self, len: usize) -> Result<Step<'a>, Refusal>
        ensures item { Hands self.now (Stage.Version len) result }
        ensures same { Same self.now.words.now result }
    {
        let behind = skip_text(
            self.words,
            self.place,
            TextRule::Spelled(TextKind::Version),
            len,
            false,
        )?;
        let text = &self.words[self.place..behind];
        let rest = Items {
            words: self.words,
            place: behind,
            stage: Stage::Files { count: 0, floor: 0 },
        };
        Ok(Step {
            item: Item::Version(text),
            place: self.place,
            rest,
        })
    }

    // The content behind the first word of a file.
    fn filed(&self, word: Word, rest: &'a [u32], count: usize) -> Result<Step<'a>, Refusal>
        requires apart { Apart self.now.words.now self.now.place word.0 rest.now }
        requires few { count < 24 }
        ensures item { shown result ≡ judged (content_refusal (content_length word.0) (self.now.place + 1) rest.now) (file_handed count self.now.place word.0 rest.now) }
        ensures same { Same self.now.words.now result }
    {
        let n = word.content_length();
        let behind = self.skip_content(n)?;
        let content = &rest[0..n];
        let kind = word.file_kind();
        let path = word.path();
        let stage = Stage::Files {
            count: count + 1,
            floor: path as usize + 1,
        };
        let rest = Items {
            words: self.words,
            place: behind,
            stage,
        };
        Ok(Step {
            item: Item::File(File {
                kind,
                path,
                content,
            }),
            place: self.place,
            rest,
        })
    }

    // The place behind the content of a file whose first word stands here.
    fn skip_content(&self, n: usize) -> Result<usize, Refusal>
        requires within { self.now.place < length self.now.words.now }
        requires short { n < 64 }
        ensures fault { told result ≡ content_refusal n (self.now.place + 1) (drop (self.now.place + 1) self.now.words.now) }
        ensures behind { IfOk result (λ p. (p ≡ self.now.place + 1 + n) × (p ≤ length self.now.words.now)) }
    {
        let place = self.place + 1;
        if n == 0 {
            return Ok(place);
        }
        skip_text(self.words, place, TextRule::Free, 3 * n, false)
    }

    // A file, or the end.
    fn file_or_end(&self, count: usize, floor: usize) -> Result<Step<'a>, Refusal>
        ensures item { Hands self.now (Stage.Files count floor) result }
        ensures same { Same self.now.words.now result }
    {
        let (word, rest) = self.apart()?;
        if let Some(reason) = item_fault(count, floor, self.place, word) {
            return Err(Refusal::in_words(reason, self.place));
        }
        if word.is_end() {
            let rest = Items {
                words: self.words,
                place: self.place + 1,
                stage: Stage::Done,
            };
            return Ok(Step {
                item: Item::End,
                place: self.place,
                rest,
            });
        }
        self.filed(word, rest, count)
    }

    // Behind the end stands nothing.
    fn past_end(&self) -> Result<Step<'a>, Refusal>
        ensures item { Hands self.now Stage.Done result }
        ensures same { Same self.now.words.now result }
    {
        let (_, _) = self.apart()?;
        Err(Refusal::in_words(Reason::WrongWord, self.place))
    }

    // Whether the input ends here, as it must once nothing more is due.
    pub(crate) fn nothing_left(&self) -> Result<(), Refusal>
        ensures { told result ≡ refusal nothing self.now.place (left_from self.now) }
    {
        if self.place < self.words.len() {
            return Err(Refusal::in_words(Reason::WrongWord, self.place));
        }
        Ok(())
    }

    // The next item and the reader behind it, or the first fault in the item.
    pub fn next(&self) -> Result<Step<'a>, Refusal>
        ensures item { Hands self.now self.now.stage result }
        ensures same { Same self.now.words.now result }
    {
        match self.stage {
            Stage::Package => self.package_name(),
            Stage::NameAlone => self.lone_name(),
            Stage::Version(len) => self.version(len),
            Stage::Files { count, floor } => self.file_or_end(count, floor),
            Stage::Done => self.past_end(),
        }
    }
}

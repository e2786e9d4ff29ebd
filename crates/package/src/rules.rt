use base::TextKind;

// What a text may say: a name or a version keeps its spelling and its length, the content of a file is free.
// It is no `Option` of a kind, since a free text has a rule as well: how many bytes its words may carry.
#[derive(Clone, Copy)]
pub enum TextRule {
    Spelled(TextKind),
    Free,
}

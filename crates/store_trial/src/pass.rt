// What is done to each path of a list. An enum, since the definitions of what a pass leaves are over it.
#[derive(Clone, Copy)]
pub enum Pass {
    // the file in place is set aside
    SetAside,
    // what is in place goes, and what was set aside comes back
    PutBack,
    // what was set aside goes
    Discard,
}

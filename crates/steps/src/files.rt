// What came of laying a file. No `Result`: what was set aside counts also where the store refused the file.
#[derive(Clone, Copy)]
pub struct Laid {
    // the store took the file
    pub admitted: bool,
    // a file stood in its way, and was set aside
    pub aside: bool,
}

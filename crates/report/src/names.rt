// The names of tasks.
use file::name;
use std::str;

const UNNAMED: &str = "unnamed";

#[derive(Clone, Copy)]
pub enum Names<'a> {
    // From task 0 on.
    Listed(&'a [&'a str]),
    // In the notes of a sheet file.
    Noted(&'a [u8]),
}

impl<'a> Names<'a> {
    // The name of task t, or else that it has none.
    pub fn of(self, t: u8) -> &'a str {
        match self {
            Names::Listed(names) => names.get(usize::from(t)).copied(),
            Names::Noted(file) => noted(file, t),
        }
        .unwrap_or(UNNAMED)
    }
}

// The name of task t in the notes of the file. A note is plain text.
fn noted(file: &[u8], t: u8) -> Option<&str> {
    let name = name(file, &[], t).ok()?;
    str::from_utf8(name).ok().filter(|name| !name.is_empty())
}

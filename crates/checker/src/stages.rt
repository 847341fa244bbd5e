// A record is blank when made, editing once it is opened, and released while nothing may change.
#[derive(Clone, Copy, Debug, PartialEq, Eq)]
pub enum Stage {
    Blank,
    Editing,
    Released,
}

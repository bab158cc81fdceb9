/// What an expression reads of the world: each is true where one of its nodes reads it.
#[derive(Clone, Copy, Debug, PartialEq, Eq)]
pub struct Mentions {
    pub zoom: bool,
    pub feature: bool,
    pub state: bool,
    pub image: bool,
}

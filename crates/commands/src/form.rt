// How a plan is shown.

#[derive(Clone, Copy, PartialEq, Eq, Debug)]
pub enum Form {
    Lines,
    Picture,
}

//! What a group between threads and its tokens know. No value of these is made.
use std::collections::LinkedList;

/// What a step of a group or of a token found.
pub enum GroupFound {
    /// One token more is counted.
    More,
    /// One token less is counted; whether it was the last.
    Less(bool),
    /// Tokens were left.
    SomeLeft,
    /// No token was left.
    NoneLeft,
    /// This is the number under which a task waits for the last token.
    Waits(u64),
    /// The number under which a task waited for the last token, or 0.
    Waiter(u64),
}

/// What a seat is.
pub enum GroupPart {
    /// The group.
    Group,
    /// A token that was not released.
    Token,
    /// A token that was released.
    Released,
}

/// What a seat knows.
pub struct GroupView {
    /// What it is.
    pub part: GroupPart,
    /// Whether it has counted a token more, and has still to part from it.
    pub added: bool,
    /// How many parts it has beside one for each token that it counts for.
    pub spare: u64,
    /// Whether it has still to look after the wait word.
    pub owes: bool,
    /// The number that it put last into the wait word.
    pub waits: u64,
    /// What its steps found, the last one first.
    pub found: LinkedList<GroupFound>,
}

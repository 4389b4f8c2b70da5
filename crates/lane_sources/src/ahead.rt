// What is found of a lane's submissions ahead of it.
use crate::file::Deals;
use crate::ruled::RuledAt;
use crossbeam_channel::Receiver;
use std::mem;
use std::sync::Wait;

/// What is found of a lane's submissions ahead of it: each ruling says of which place it is, and its type that it is what a sentinel makes of
/// the submission there. Which ones come, and in which order, nothing is said of.
#[derive(Drop)]
pub enum Ahead<F: Deals> {
    /// Nothing is.
    Nothing,
    /// What was found before the lane begins, the first one last.
    Found(Vec<RuledAt<F>>),
    /// What another thread finds meanwhile, and sends: some submissions a message, the first one last.
    Sent(Receiver<Vec<RuledAt<F>>>),
}

impl<F: Deals> Ahead<F> {
    /// The next ones, or nothing where none come any more. It waits for those that are still to be sent.
    pub(crate) fn next<W: Wait>(&mut self, rt: &W) -> Option<Vec<RuledAt<F>>> {
        if let Ahead::Sent(messages) = self {
            return messages.recv(rt).ok();
        }
        match mem::replace(self, Ahead::Nothing) {
            Ahead::Found(rulings) => Some(rulings),
            _ => None,
        }
    }
}

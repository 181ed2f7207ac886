//! One client: the bytes that it sent and that are not yet executed, and the rest of its answer.

ghost use Rattle.std.specs.Prelude.{◌≡◌, ◌≤◌, drop, length, take};
ghost use Rattle.arrayvec.specs.ArrayVec.{array_vec_len};
ghost use Rattle.tpm_simulator_protocol.specs.Answer.{response_limit};
ghost use Rattle.tpm_simulator_protocol.specs.Client.{IsDue, answered_state, fitting, new_state};
ghost use Rattle.tpm_simulator_protocol.specs.Client.{received_state, sent_state};
ghost use Rattle.tpm_simulator_protocol.specs.Request.{content_of, has_ended};

use crate::answer::{ANSWER_LIMIT, append, write_answer};
use crate::request::{
    Due, Fate, Port, REQUEST_LIMIT, content_of, fate_after, request_of, request_size,
};
use arrayvec::ArrayVec;
use std::marker::Model;

/// A client. It stores at most one request and one answer.
#[derive(Drop)]
pub struct Client {
    port: Port,
    taken: ArrayVec<u8, REQUEST_LIMIT>,
    unsent: ArrayVec<u8, ANSWER_LIMIT>,
    fate: Fate,
}

impl Model for Client {
    ghost use Rattle.tpm_simulator_protocol.specs.Client.{State};

    ghost Value = { State };

    ghost view = { λ c. record {
      port = c.port;
      taken = c.taken.items;
      unsent = c.unsent.items;
      fate = c.fate;
    } };
}

impl Client {
    /// Returns a client that has just connected to a port.
    pub fn new(port: Port) -> Client
        ensures { result ≡ new_state port }
    {
        Client {
            port,
            taken: ArrayVec::new(),
            unsent: ArrayVec::new(),
            fate: Fate::Continues,
        }
    }

    /// What happens to the client once its answer is sent.
    pub fn fate(&self) -> Fate
        ensures { result ≡ self.now.fate }
    {
        self.fate
    }

    /// Stores as many bytes of `piece` as fit, and returns their number.
    pub fn receive(&mut self, piece: &[u8]) -> usize
        ensures count { result ≡ length (fitting self.old piece.now) }
        ensures after { self.new ≡ received_state self.old piece.now }
    {
        let count = self.taken.remaining_capacity().min(piece.len());
        append(&mut self.taken, &piece[..count]);
        count
    }

    /// Returns the request that is to be executed next, if all its bytes were received. There is
    /// none while part of an answer is unsent.
    pub fn due(&self) -> Option<Due>
        ensures { IsDue self.now result }
    {
        if !self.unsent.is_empty() || has_ended(self.fate) {
            return None;
        }
        let bytes = self.taken.as_slice();
        let size = request_size(self.port, bytes)?;
        if bytes.len() < size {
            return None;
        }
        let request = request_of(self.port, &bytes[..size]);
        Some(Due { request, size })
    }

    /// Returns the command or the data of the request that is to be executed next.
    pub fn content(&self, due: Due) -> &[u8]
        requires { due.size ≤ length self.now.taken }
        ensures { result.now ≡ content_of due.request (take due.size self.now.taken) }
    {
        content_of(due.request, &self.taken.as_slice()[..due.size])
    }

    /// Removes the due request, if any, and stores its answer. The request was executed with this
    /// response; requests that do not execute a command have no response.
    pub fn answer(&mut self, response: &[u8])
        requires { length response.now ≤ response_limit }
        ensures { self.new ≡ answered_state self.old response.now }
    {
        let Some(due) = self.due() else {
            return;
        };
        write_answer(&mut self.unsent, due.request, response);
        remove_front(&mut self.taken, due.size);
        self.fate = fate_after(due.request);
    }

    /// The part of the answer that is not sent yet.
    pub fn unsent(&self) -> &[u8]
        ensures { result.now ≡ self.now.unsent }
    {
        self.unsent.as_slice()
    }

    /// Removes the first `count` bytes of the answer, because they were sent.
    pub fn sent(&mut self, count: usize)
        ensures { self.new ≡ sent_state self.old count }
    {
        let count = count.min(self.unsent.len());
        remove_front(&mut self.unsent, count);
    }
}

/// Whether a connection executes no more requests.
fn has_ended(fate: Fate) -> bool
    ensures { result ≡ has_ended fate }
{
    match fate {
        Fate::Continues => false,
        Fate::Closes | Fate::Stops => true,
    }
}

/// Removes the first `count` bytes, and moves the remaining bytes to the beginning.
fn remove_front<const N: usize>(bytes: &mut ArrayVec<u8, N>, count: usize)
    requires { count ≤ array_vec_len bytes.old }
    ensures { bytes.new.items ≡ drop count bytes.old.items }
{
    let size = bytes.len();
    bytes.as_mut_slice().copy_within(count..size, 0);
    bytes.truncate(size - count);
}

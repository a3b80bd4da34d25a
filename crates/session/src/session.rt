ghost use Rattle.std.specs.Prelude.{◌≡◌, ◌<◌, ◌≤◌, ◌+◌, ◌++◌, ℕ, List, true, false, None, length, take, drop, vec_len, IsOk, IfOk, OnOk, OnErr};
ghost use Rattle.object.specs.Results.{Becomes};
ghost use Rattle.bean_codec.specs.Reads.{longest_unfinished};
ghost use Rattle.bean_codec.specs.Replies.{reply_text};
ghost use Rattle.session.specs.Items.{refused_text};
ghost use Rattle.session.specs.Held.{holding, nothing_held, is_asked, fed_buffer_len, text_buffer_len, MayKeep, StandsBefore, HasRoomFor, Feeds, FrontTakesRoom, Finds};

use bean_codec::{Profile, Read, Request, Want, read_request_in, write_fault, write_reply};
use bean_words::Reply;
use std::alloc::{AllocError, Global};
use std::marker::Model;

/// One client's bytes on their way to asks, and its answers on their way back to bytes.
///
/// Bytes are fed as they come. Asks are taken one by one, each is answered before the next is taken, and what is to be
/// told gathers until it is sent. Where no ask is left, no more is kept than a request that isn't finished, and the next
/// piece takes the place of what was read.
#[derive(Drop)]
pub struct Session {
    profile: Profile,
    /// What was fed, as far as it is kept.
    bytes: Vec<u8>,
    /// So many of these are read.
    start: usize,
    want: Want,
    /// What the client is told.
    text: Vec<u8>,
    /// So many of these bytes are sent.
    sent: usize,
    is_open: bool,
    alloc: Global,
}

impl Model for Session {
    ghost use Rattle.std.specs.Prelude.{◌≤◌, drop, vec_len, vec_capacity};
    ghost use Rattle.session.specs.Held.{Held, MayKeep};

    ghost Value = { Held };

    ghost view = { λ s. record { profile = s.profile; want = s.want; kept = drop s.start s.bytes.items; unsent = drop s.sent s.text.items; is_open = s.is_open; read_len = s.start; sent_len = s.sent; capacity = vec_capacity s.bytes } };

    ghost invariant = { λ s. (s.start ≤ vec_len s.bytes) × (s.sent ≤ vec_len s.text) × MayKeep s.profile s.want (drop s.start s.bytes.items) };
}

impl Session {
    /// A session of the plain profile that was fed nothing.
    pub fn new(alloc: Global) -> Session
        ensures { result ≡ nothing_held Profile.Plain }
    {
        Session::speaking(Profile::Plain, alloc)
    }

    /// A session of this profile that was fed nothing.
    pub fn speaking(profile: Profile, alloc: Global) -> Session
        ensures { result ≡ nothing_held profile }
    {
        Session {
            profile,
            bytes: Vec::new(alloc),
            start: 0,
            want: Want::Line,
            text: Vec::new(alloc),
            sent: 0,
            is_open: false,
            alloc,
        }
    }

    /// Makes room for so many bytes more: a piece of no more bytes can be fed then. What was read is let go of, even where
    /// memory is refused.
    pub fn make_room(&mut self, len: usize) -> Result<(), AllocError>
        ensures ok { OnOk result (HasRoomFor len self.new) }
        ensures held { self.new ≡ record self.old { read_len = 0; capacity = self.new.capacity } }
        ensures succeeds { HasRoomFor len self.old → IsOk result }
        ensures err { OnErr result (self.new.capacity ≡ self.old.capacity) }
    {
        self.shift_down();
        self.bytes.reserve(len)
    }

    /// The next bytes of the client, which are copied. What was read is let go of, even where memory is refused.
    pub fn feed(&mut self, piece: &[u8]) -> Result<(), AllocError>
        ensures fed { Feeds self.old self.new piece.now result }
        ensures stands { OnOk result ((text : List ℕ) → StandsBefore self.old text
            → StandsBefore self.new (text ++ piece.now)) }
        ensures buffer { OnOk result (fed_buffer_len self.new
            ≡ length self.old.kept + length piece.now) }
    {
        self.append(piece)
    }

    // A piece more is kept.
    fn append(&mut self, piece: &[u8]) -> Result<(), AllocError>
        ensures { Feeds self.old self.new piece.now result }
    {
        self.shift_down();
        self.bytes.extend_from_slice(piece)
    }

    // Lets go of what is read.
    fn shift_down(&mut self)
        ensures { self.new ≡ record self.old { read_len = 0 } }
    {
        if self.start > 0 {
            let kept = self.bytes.len() - self.start;
            self.bytes.copy_within(self.start.., 0);
            self.bytes.truncate(kept);
            self.start = 0;
        }
    }

    /// The request at the front of what was fed, or that there is none as yet. The faults before it are put down as
    /// text to send. After a quit it goes on with what follows.
    pub fn next_ask(&mut self) -> Result<Option<Request>, AllocError>
        requires { self.old.is_open ≡ false }
        ensures found { IfOk result (λ found. (text : List ℕ) → StandsBefore self.old text
            → Finds self.old.profile self.old self.new text found) }
        ensures profile { self.new.profile ≡ self.old.profile }
        ensures open { IfOk result (λ found. self.new.is_open ≡ is_asked found) }
        ensures small { IfOk result
            (λ found. found ≡ None → length self.new.kept ≤ longest_unfinished) }
        ensures buffer { OnOk result (fed_buffer_len self.new ≡ fed_buffer_len self.old) }
        ensures sent_len { OnOk result (self.new.sent_len ≡ self.old.sent_len) }
        ensures capacity { self.new.capacity ≡ self.old.capacity }
        ensures memory { OnErr result ((text : List ℕ) → StandsBefore self.old text
            → FrontTakesRoom self.old.profile text) }
        ensures err { OnErr result (self.new ≡ self.old) }
    {
        let len = self.text.len();
        match look_on(
            self.profile,
            self.alloc,
            self.bytes.as_slice(),
            self.start,
            self.want,
            &mut self.text,
        ) {
            Ok(found) => {
                self.start = found.start;
                self.want = found.want;
                self.is_open = matches!(found.request, Some(Request::Do(_)));
                Ok(found.request)
            }
            Err(e) => {
                self.text.truncate(len);
                Err(e)
            }
        }
    }

    /// What the client is to be told and isn't sent yet.
    pub fn unsent(&self) -> &[u8]
        ensures { result.now ≡ self.now.unsent }
    {
        &self.text[self.sent..]
    }

    /// So many bytes more are sent. Once all are, none is kept.
    pub fn sent(&mut self, n: usize)
        requires { n ≤ length self.old.unsent }
        ensures unsent { self.new
            ≡ record self.old {
              unsent = drop n self.old.unsent;
              sent_len = self.new.sent_len;
            } }
        ensures all { n ≡ length self.old.unsent → text_buffer_len self.new ≡ 0 }
        ensures some { n < length self.old.unsent → text_buffer_len self.new
            ≡ text_buffer_len self.old }
    {
        self.sent += n;
        if self.sent == self.text.len() {
            self.text.clear();
            self.sent = 0;
        }
    }

    /// The reply to the open ask.
    pub fn reply(&mut self, reply: &Reply) -> Result<(), AllocError>
        requires { self.old.is_open ≡ true }
        ensures ok { Becomes result self.old self.new
            (record self.old {
              unsent = self.old.unsent ++ reply_text reply.now;
              is_open = false;
            }) }
    {
        write_reply(reply, &mut self.text)?;
        self.is_open = false;
        Ok(())
    }

    /// The open ask was refused for want of memory.
    #[tactic(auto, unfolding(crate::specs::Items::refused_text))]
    pub fn refused(&mut self) -> Result<(), AllocError>
        requires { self.old.is_open ≡ true }
        ensures ok { Becomes result self.old self.new
            (record self.old { unsent = self.old.unsent ++ refused_text; is_open = false }) }
    {
        self.text.extend_from_slice(b"OUT_OF_MEMORY\r\n")?;
        self.is_open = false;
        Ok(())
    }
}

// What was found, and where the session goes on.
#[derive(Drop)]
struct Found {
    request: Option<Request>,
    start: usize,
    want: Want,
}

// The first request from `start` on. The faults before it are written. At a put whose body isn't there, no more is
// looked at than its line.
fn look_on(
    profile: Profile,
    alloc: Global,
    bytes: &[u8],
    start: usize,
    want: Want,
    text: &mut Vec<u8>,
) -> Result<Found, AllocError>
    requires begun { start ≤ length bytes.now }
    requires kept { MayKeep profile want (drop start bytes.now) }
    ensures within { IfOk result (λ found. found.start ≤ length bytes.now) }
    ensures kept { IfOk result (λ found. MayKeep profile found.want (drop found.start bytes.now)) }
    ensures found { IfOk result (λ found. (t : List ℕ)
        → StandsBefore (holding profile want (drop start bytes.now) text.old.items) t →
        Finds profile (holding profile want (drop start bytes.now) text.old.items)
        (holding profile found.want (drop found.start bytes.now) text.new.items) t found.request) }
    ensures small { IfOk result (λ found. found.request ≡ None
        → length (drop found.start bytes.now) ≤ longest_unfinished) }
    ensures memory { OnErr result ((t : List ℕ)
        → StandsBefore (holding profile want (drop start bytes.now) text.old.items) t → FrontTakesRoom profile t) }
    ensures front { take (vec_len text.old) text.new.items ≡ text.old.items }
{
    let mut at = start;
    let mut next = want;
    'items: loop {
        let (_, kept) = bytes.split_at(at);
        match read_request_in(profile, alloc, next, kept)? {
            Read::More => {
                return Ok(Found {
                    request: None,
                    start: at,
                    want: next,
                });
            }
            Read::Drop { used, want } => {
                at += used;
                next = want;
            }
            Read::Bad { fault, used } => {
                write_fault(fault, text)?;
                at += used;
                next = Want::Line;
            }
            Read::Request { request, used } => {
                return Ok(Found {
                    request: Some(request),
                    start: at + used,
                    want: Want::Line,
                });
            }
        }
    }
}

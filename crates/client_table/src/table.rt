ghost use Rattle.std.specs.Prelude.{◌≡◌, ◌∷◌, [], ◌+◌, ◌<◌, ◌^◌, Some, length, IsSome, IfOk};
ghost use Rattle.std.specs.Option.{option_copied};
ghost use Rattle.std.specs.FinMap.{get, insert, remove};
ghost use Rattle.object.specs.Results.{Becomes};
ghost use Rattle.client_table.specs.Clients.{blank_summary, new_client, with_command, with_replies, with_effect, told};

use crate::client::Client;
use object::{Answer, Command, Key, Value};
use std::alloc::{AllocError, Global};
use std::collections::BTreeMap;
use std::marker::Model;

/// The clients by their sessions, the clock as session 0; and how many commands were submitted, were answered and took
/// effect.
#[derive(Drop)]
pub struct ClientTable<Op: Value, Reply: Value> {
    clients: BTreeMap<u32, Client<Op, Reply>>,
    submitted: u64,
    answered: u64,
    placed: u64,
}

impl<Op: Value, Reply: Value> Model for ClientTable<Op, Reply> {
    ghost use Rattle.std.specs.Coded.{codes};
    ghost use Rattle.std.specs.FinMap.{from_entries};
    ghost use Rattle.ballot.specs.Slots.{slots_code};
    ghost use Rattle.client_table.specs.Clients.{Summary, HasOwnCommands};

    ghost Value = { Summary Op Reply };

    ghost coded = { Prim.hlevel (codes, slots_code, Op.code, Reply.code) };

    ghost view = { λ t. record {
      clients = from_entries t.clients.entries;
      submitted = t.submitted;
      answered = t.answered;
      placed = t.placed;
    } };

    ghost invariant = { λ t. HasOwnCommands (from_entries t.clients.entries) };
}

impl<Op: Value, Reply: Value> ClientTable<Op, Reply> {
    /// Nothing happened, and only the clock is there.
    pub fn new(alloc: Global) -> Result<ClientTable<Op, Reply>, AllocError>
        ensures { IfOk result (λ t. t ≡ blank_summary) }
    {
        let mut clients = BTreeMap::new(alloc);
        clients.insert(0, Client::new())?;
        Ok(ClientTable {
            clients,
            submitted: 0,
            answered: 0,
            placed: 0,
        })
    }

    /// The client of a session, where it is there.
    pub fn client(&self, session: u32) -> Option<&Client<Op, Reply>>
        ensures { option_copied result ≡ get self.now.clients session }
    {
        self.clients.get(&session)
    }

    /// How many commands were submitted.
    pub fn submitted(&self) -> u64
        ensures { result ≡ self.now.submitted }
    {
        self.submitted
    }

    /// How many commands were answered.
    pub fn answered(&self) -> u64
        ensures { result ≡ self.now.answered }
    {
        self.answered
    }

    /// How many commands took effect.
    pub fn placed(&self) -> u64
        ensures { result ≡ self.now.placed }
    {
        self.placed
    }

    /// A session is there that has handed in nothing.
    pub fn open(&mut self, session: u32) -> Result<(), AllocError>
        ensures ok { Becomes result self.old self.new
            (record self.old { clients = insert self.old.clients session new_client }) }
    {
        self.clients.insert(session, Client::new())?;
        Ok(())
    }

    /// A session is there no more. It takes no memory.
    pub fn let_go(&mut self, session: u32)
        ensures { self.new ≡ record self.old { clients = remove self.old.clients session } }
    {
        self.clients.remove(&session);
    }

    /// The command is the last one of its session now, which is there. It takes no memory.
    pub fn hand_in(&mut self, command: Command<Op>)
        requires there { IsSome (get self.old.clients command.key.session) }
        requires room { self.old.submitted + 1 < 2 ^ 64 }
        ensures { self.new ≡ with_command command self.old }
    {
        let session = command.key().session;
        let known: Result<_, _> = self.clients.insert(session, Client::of(command));
        known.unwrap();
        self.submitted += 1;
    }

    /// These answers are given, to keys that had none. Each is the reply of the client whose last command it is to. It takes
    /// no memory.
    pub fn hear(&mut self, given: Vec<Answer<Reply>>)
        requires room { self.old.answered + length given.items < 2 ^ 64 }
        ensures { self.new ≡ with_replies given.items self.old }
    {
        let count = given.len() as u64;
        for answer in given {
            self.hear_one(answer);
        }
        self.answered += count;
    }

    /// The command of the key takes effect, where there is one.
    pub fn place(&mut self, key: Option<Key>)
        requires room { self.old.placed + 1 < 2 ^ 64 }
        ensures { self.new ≡ with_effect key self.old }
    {
        if key.is_some() {
            self.placed += 1;
        }
    }

    // An answer is given.
    fn hear_one(&mut self, answer: Answer<Reply>)
        ensures { self.new ≡ told (answer ∷ []) self.old }
    {
        if let Some(client) = self.clients.get_mut(&answer.to.session) {
            client.hear(answer);
        }
    }
}

ghost use Rattle.std.specs.Prelude.{◌≡◌, ◌<◌, ◌≤◌, ◌+◌, ◌-◌, ◌^◌, ◌⊎◌, IfSome, IfNone};
ghost use Rattle.host.specs.Keeping.{kept_upto};

/// That the records of so many letters that asked for a vote are kept, of all that were put aside since a host's last
/// boot. Only the account of that boot makes one.
#[derive(Clone, Copy, Debug)]
pub struct Kept {
    boot: u64,
    upto: u64,
}

impl Kept {
    /// How many records are kept of the host of this boot: none of another's.
    pub(crate) fn upto(self, boot: u64) -> u64
        ensures { result ≡ kept_upto boot self }
    {
        if self.boot == boot { self.upto } else { 0 }
    }
}

/// How many records a journal was handed since a host's last boot, and how many of these it keeps. The host gives the
/// only one of its boot to its journal, which tells it of a record once it is written, and that records are kept once
/// the file is synced.
#[derive(Drop)]
pub struct Account {
    boot: u64,
    written: u64,
    kept: u64,
    ghost ok: { kept ≤ written },
}

impl Account {
    /// None is written since this boot.
    pub(crate) fn new(boot: u64) -> Account
        ensures boot { result.boot ≡ boot }
        ensures written { result.written ≡ 0 }
        ensures kept { result.kept ≡ 0 }
    {
        Account {
            boot,
            written: 0,
            kept: 0,
        }
    }

    /// How many are written: the next one is that of the letter after so many.
    pub fn written(&self) -> u64
        ensures { result ≡ self.now.written }
    {
        self.written
    }

    /// How many are kept.
    pub fn kept(&self) -> u64
        ensures { result ≡ self.now.kept }
    {
        self.kept
    }

    /// The next one is written. It answers how many are written then, or None where they can't be counted any more.
    pub fn write(&mut self) -> Option<u64>
        ensures written { IfSome result (λ written. (written ≡ self.old.written + 1)
            × (self.new.written ≡ self.old.written + 1)
            × (self.new.boot ≡ self.old.boot) × (self.new.kept ≡ self.old.kept)) }
        ensures uncounted { IfNone result ((self.new ≡ self.old)
            × (self.old.written ≡ 2 ^ 64 - 1)) }
    {
        self.written = self.written.checked_add(1)?;
        Some(self.written)
    }

    /// So many of what was written are kept now. It answers None where so many were not written, or fewer than were
    /// kept before.
    pub fn keep(&mut self, upto: u64) -> Option<Kept>
        ensures kept { IfSome result (λ kept. (kept ≡ record { boot = self.old.boot; upto = upto })
            × (upto ≤ self.old.written) × (self.old.kept ≤ upto)
            × (self.new.kept ≡ upto)
            × (self.new.boot ≡ self.old.boot) × (self.new.written ≡ self.old.written)) }
        ensures refused { IfNone result ((self.new ≡ self.old)
            × ((self.old.written < upto) ⊎ (upto < self.old.kept))) }
    {
        if upto < self.kept || self.written < upto {
            return None;
        }
        self.kept = upto;
        Some(Kept {
            boot: self.boot,
            upto,
        })
    }
}

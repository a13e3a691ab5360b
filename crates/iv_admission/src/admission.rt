//! `Admission`: the tokens that the desk is to know, as far as a second says, and web tokens that are presented.
ghost use Rattle.std.specs.Prelude.{◌≡◌, ◌<◌, ◌≤◌, ◌+◌, ◌-◌, ◌%◌, ◌==◌, ◌&&◌, ℕ, IfOk, List, None, Ok, OnOk, Some, codes, if◌then◌else◌, length, map};
ghost use Rattle.std.specs.Prelude.{not, option_map, slice_get, true, unwrap_or};
ghost use Rattle.std.specs.List.{remove};
ghost use Rattle.httparse.specs.Grammar.{ReadsRequest, RequestHead};
ghost use Rattle.httparse.specs.Spans.{name_and_value};
ghost use Rattle.iv_pages.specs.Asking.{field_in, most_fields, window};
ghost use Rattle.iv_peer.specs.Socket.{fresh};
ghost use Rattle.iv_tokens.specs.Web.{Web as Seen, handed_on, known_at, told};
ghost use Rattle.iv_running.specs.Running.{Serves};
ghost use Rattle.iv_admission.specs.Admitting.{HasAdmins, IsBegun, IsHanded, IsLater, IsSameBase, IsSameBut, IsToldOf, answer_beside, answer_for};
ghost use Rattle.iv_admission.specs.Admitting.{in_use, is_beyond, is_in_use, opens_admin, tokens_of, web_after, web_on, with_granted};
ghost use Rattle.iv_admission.specs.ByToken.{are_by, are_of, with_count};
ghost use Rattle.std.specs.Global.{Vec};

use crate::by_token::ByToken;
use crate::scout::Scout;
use crate::tokens::{read_tokens, secret_of};
use iv_clients::Token;
use iv_desk::Desk;
use iv_host::{ADMIN, Admins, Settings, TokenFile, presented_in, second_now};
use iv_running::calls::know;
use iv_running::{Fault, out_of_memory};
use iv_tokens::{Entry, Judged, KnownTokens, Web};
use std::alloc::{AllocError, Global};

/// Seconds between two looks at which web tokens no client has.
const LOOKS: u64 = 10;

/// Who may come in.
#[derive(Drop)]
pub struct Admission {
    /// The allocator of what it makes.
    alloc: Global,
    /// The tokens of the file, and web tokens that were granted.
    known: KnownTokens,
    /// The tokens that open the role of administrators.
    admins: Admins,
    /// How many clients are there by each token.
    by_token: ByToken,
    /// Whether texts that are presented may be web tokens.
    judges: bool,
    /// The second for which tokens are known.
    second: u64,
    /// It was looked in this second at which web tokens no client has.
    looked: bool,
}

/// Whether a text is granted, but too many are known.
fn is_beyond(judged: &Judged) -> bool
    ensures { result ≡ is_beyond judged.now }
{
    match judged {
        Judged::Full => true,
        Judged::Known | Judged::Granted | Judged::Refused(_) => false,
    }
}

/// The tokens that are known at a second; none was handed on yet.
fn first_handed(
    alloc: Global,
    known: &mut KnownTokens,
    second: u64,
) -> Result<Vec<Token>, AllocError>
    requires { known.old.handed ≡ None }
    ensures tokens { IfOk result (λ ts. ts.items ≡ known_at second known.new) }
    ensures handed { OnOk result (handed_on known.new ≡ Some (known_at second known.new)) }
    ensures keeps { (known.new.entries ≡ known.old.entries) × (known.new.secret ≡ known.old.secret) × (known.new.web ≡ known.old.web) }
{
    match known.at(alloc, second)? {
        Some(tokens) => Ok(tokens),
        None => Ok(Vec::new(alloc)),
    }
}

impl Admission {
    /// By these entries and this secret, and the tokens that are known at a second, in seconds since 1970, for a new desk.
    fn new(
        alloc: Global,
        secret: Vec<u8>,
        entries: Vec<Entry>,
        second: u64,
    ) -> Result<(Admission, Vec<Token>), AllocError>
        ensures begun { IfOk result (λ p. IsBegun entries.items p.0 p.1.items) }
        ensures secret { IfOk result (λ p. p.0.known.secret ≡ secret.items) }
    {
        let judges = !secret.is_empty();
        let mut known = KnownTokens::new(alloc, secret, entries);
        let tokens = first_handed(alloc, &mut known, second)?;
        let admins = Admins::among(alloc, &tokens)?;
        let admission = Admission {
            alloc,
            known,
            admins,
            by_token: ByToken::new(alloc),
            judges,
            second,
            looked: false,
        };
        Ok((admission, tokens))
    }

    /// By these entries of the file of tokens and by the secret, as the settings have it; and the tokens that a new desk is to know.
    ///
    /// # Errors
    /// The status to exit with, once it was said why.
    pub fn by(
        rt: &HostRuntime,
        settings: &Settings,
        entries: Vec<Entry>,
    ) -> Result<(Admission, Vec<Token>), u8>
        ensures { IfOk result (λ p. IsBegun entries.items p.0 p.1.items) }
    {
        let secret = secret_of(rt, settings)?;
        match Admission::new(rt.alloc(), secret, entries, second_now(rt)) {
            Ok(begun) => Ok(begun),
            Err(_) => Err(out_of_memory(rt)),
        }
    }

    /// Has the desk know the tokens that are known now, if these are others than those that it knows. Who came by another is closed.
    fn open(&mut self, desk: &mut Desk) -> Result<(), Fault>
        ensures serves { Serves desk.old desk.new }
        ensures handed { OnOk result (IsHanded self.old.known (tokens_of self.old) desk.old desk.new) }
        ensures kept { OnOk result (handed_on self.new.known ≡ Some (tokens_of self.old)) }
        ensures same { IsSameBut self.old self.new × (self.new.known.web ≡ self.old.known.web) }
        ensures looked { self.new.looked ≡ self.old.looked }
        ensures admins { HasAdmins self.old → OnOk result (HasAdmins self.new) }
    {
        match self.known.at(self.alloc, self.second)? {
            None => Ok(()),
            Some(tokens) => {
                self.admins = Admins::among(self.alloc, &tokens)?;
                know(desk, tokens)
            }
        }
    }

    /// It is a further second. Each tenth one web tokens are forgotten that are not in use.
    fn turn_to(&mut self, second: u64)
        ensures second { self.new.second ≡ second }
        ensures web { self.new.known.web ≡ web_on self.old second }
        ensures keeps { IsSameBase self.old self.new × (self.new.known.entries ≡ self.old.known.entries) × (self.new.admins ≡ self.old.admins) }
        ensures looked { self.new.looked ≡ (second % 10 == 0) }
        ensures later { IsLater self.old.known self.new.known }
    {
        self.second = second;
        self.looked = false;
        if second % LOOKS == 0 {
            self.forget_unused();
        }
    }

    /// It is a further second. Has the desk know the tokens that are known then, if these are others than those that it knows. Who came by
    /// another is closed.
    fn open_at(&mut self, desk: &mut Desk, second: u64) -> Result<(), Fault>
        ensures serves { Serves desk.old desk.new }
        ensures handed { OnOk result (IsHanded self.old.known (tokens_of self.new) desk.old desk.new) }
        ensures kept { OnOk result (handed_on self.new.known ≡ Some (tokens_of self.new)) }
        ensures admins { HasAdmins self.old → OnOk result (HasAdmins self.new) }
        ensures keeps { IsSameBase self.old self.new × (self.new.known.entries ≡ self.old.known.entries) }
        ensures web { OnOk result (self.new.known.web ≡ web_on self.old second) }
        ensures looked { OnOk result (self.new.looked ≡ (second % 10 == 0)) }
        ensures second { OnOk result (self.new.second ≡ second) }
    {
        self.turn_to(second);
        self.open(desk)
    }

    /// The file of tokens was read again, if it has changed: these are its entries.
    fn read(&mut self, entries: Option<Vec<Entry>>)
        ensures later { IsLater self.old.known self.new.known }
        ensures entries { self.new.known.entries ≡ unwrap_or (option_map (λ es. es.items) entries) self.old.known.entries }
        ensures web { self.new.known.web ≡ self.old.known.web }
        ensures keeps { IsSameBase self.old self.new × (self.new.admins ≡ self.old.admins) }
    {
        if let Some(entries) = entries {
            self.known.read(entries);
        }
    }

    /// It is a further second. The file of tokens is read again, if it has changed. Has the desk know the tokens that are known now, if these are
    /// others than those that it knows. Who came by another is closed.
    ///
    /// # Errors
    /// `Memory` if a growth of memory was refused.
    pub fn look(
        &mut self,
        rt: &HostRuntime,
        desk: &mut Desk,
        file: &mut TokenFile,
    ) -> Result<(), Fault>
        ensures serves { Serves desk.old desk.new }
        ensures handed { OnOk result (IsHanded self.old.known (tokens_of self.new) desk.old desk.new) }
        ensures kept { OnOk result (handed_on self.new.known ≡ Some (tokens_of self.new)) }
        ensures admins { HasAdmins self.old → OnOk result (HasAdmins self.new) }
        ensures keeps { IsSameBase self.old self.new }
        ensures web { OnOk result (self.new.known.web ≡ web_on self.old self.new.second) }
        ensures looked { OnOk result (self.new.looked ≡ (self.new.second % 10 == 0)) }
    {
        let entries = read_tokens(rt, file);
        self.read(entries);
        self.open_at(desk, second_now(rt))
    }

    /// Whether a web token has not ended, and a client has come in by it.
    fn is_in_use(&self, one: &Web) -> bool
        ensures { result ≡ is_in_use self.now one.now }
    {
        one.until > self.second && self.by_token.has(&one.token.digest)
    }

    /// Whether the web token of a place is in use.
    fn is_kept(&self, at: usize) -> bool
        ensures { (w : Seen) → slice_get self.now.known.web at ≡ Some w → result ≡ is_in_use self.now w }
    {
        match self.known.web().get(at) {
            None => true,
            Some(one) => self.is_in_use(one),
        }
    }

    /// Forgets the web token of a place, if it is not in use.
    fn forget_at(&mut self, at: usize)
        requires { at < length self.old.known.web }
        ensures web { (w : Seen) → slice_get self.old.known.web at ≡ Some w
            → self.new.known.web ≡ if is_in_use self.old w then self.old.known.web else remove self.old.known.web at }
        ensures same { IsSameBut self.old self.new × (self.new.admins ≡ self.old.admins) }
        ensures looked { self.new.looked ≡ self.old.looked }
        ensures later { IsLater self.old.known self.new.known }
    {
        if !self.is_kept(at) {
            self.known.forget(at);
        }
    }

    /// Forgets web tokens that are not in use.
    fn forget_unused(&mut self)
        ensures web { self.new.known.web ≡ in_use self.old }
        ensures looked { self.new.looked ≡ true }
        ensures same { IsSameBut self.old self.new × (self.new.admins ≡ self.old.admins) }
        ensures later { IsLater self.old.known self.new.known }
    {
        self.looked = true;
        let count = self.known.web().len();
        for back in 0..count {
            self.forget_at(count - 1 - back);
        }
    }

    /// Whether a text is judged once more, of which this became: too many are known, and web tokens may be there that are not in use.
    fn may_judge_again(&self, judged: &Judged) -> bool
        ensures { result ≡ is_beyond judged.now && not self.now.looked }
    {
        is_beyond(judged) && !self.looked
    }

    /// Judges a text once more, beside web tokens that are in use alone.
    fn judge_again(&mut self, text: &[u8]) -> Result<Judged, Fault>
        ensures judged { IfOk result (λ j. j ≡ told (answer_beside (in_use self.old) self.old text.now)) }
        ensures web { OnOk result (self.new.known.web ≡ with_granted (answer_beside (in_use self.old) self.old text.now) (in_use self.old)) }
        ensures same { OnOk result (IsSameBut self.old self.new × (self.new.admins ≡ self.old.admins)) }
        ensures granted { result ≡ Ok Judged.Granted → self.new.known.handed ≡ None }
        ensures later { OnOk result (IsLater self.old.known self.new.known) }
    {
        self.forget_unused();
        Ok(self.known.judge(self.alloc, self.second, text)?)
    }

    /// Judges a text; if too many are known, once more without those that no client has.
    fn judge(&mut self, text: &[u8]) -> Result<Judged, Fault>
        ensures judged { IfOk result (λ j. j ≡ told (answer_for self.old text.now)) }
        ensures web { OnOk result (self.new.known.web ≡ web_after self.old text.now) }
        ensures same { OnOk result (IsSameBut self.old self.new × (self.new.admins ≡ self.old.admins)) }
        ensures granted { result ≡ Ok Judged.Granted → self.new.known.handed ≡ None }
        ensures later { OnOk result (IsLater self.old.known self.new.known) }
    {
        let judged = self.known.judge(self.alloc, self.second, text)?;
        if self.may_judge_again(&judged) {
            return self.judge_again(text);
        }
        Ok(judged)
    }

    /// A client presents a text. A web token that is granted is known to the desk from now on.
    ///
    /// # Errors
    /// As of `look`.
    pub fn present(&mut self, desk: &mut Desk, text: &[u8]) -> Result<Judged, Fault>
        ensures serves { Serves desk.old desk.new }
        ensures judged { IfOk result (λ j. j ≡ told (answer_for self.old text.now)) }
        ensures web { OnOk result (self.new.known.web ≡ web_after self.old text.now) }
        ensures same { OnOk result (IsSameBut self.old self.new) }
        ensures admins { HasAdmins self.old → OnOk result (HasAdmins self.new) }
        ensures granted { result ≡ Ok Judged.Granted → IsToldOf (tokens_of self.new) desk.old desk.new }
        ensures others { IfOk result (λ j. (j ≡ Judged.Granted → ⊥) → desk.new ≡ desk.old) }
    {
        let judged = self.judge(text)?;
        match judged {
            Judged::Granted => {
                self.open(desk)?;
                Ok(judged)
            }
            Judged::Known | Judged::Full | Judged::Refused(_) => Ok(judged),
        }
    }

    /// A client has come in by the token of a digest. How many are there by it.
    ///
    /// # Errors
    /// `AllocError` if a growth of memory was refused.
    pub fn come(&mut self, digest: &[u8]) -> Result<usize, AllocError>
        ensures count { IfOk result (λ n. (q : Vec ℕ) → are_of self.new.by_token.counts q ≡ with_count digest.now n self.old.by_token.counts q) }
        ensures more { IfOk result (λ n. n ≡ are_by self.old.by_token.counts digest.now + 1) }
        ensures same { self.new ≡ record self.old { by_token = self.new.by_token } }
    {
        self.by_token.come(digest)
    }

    /// A client that came in by the token of a digest goes.
    ///
    /// # Errors
    /// As of `come`.
    pub fn go(&mut self, digest: &[u8]) -> Result<(), AllocError>
        ensures count { OnOk result ((q : Vec ℕ) → are_of self.new.by_token.counts q
            ≡ with_count digest.now (are_of self.old.by_token.counts q - 1) self.old.by_token.counts q) }
        ensures same { self.new ≡ record self.old { by_token = self.new.by_token } }
    {
        self.by_token.go(digest)
    }

    /// What hears what is presented at a number, if that may be a web token.
    pub fn scout(&self) -> Option<Scout>
        ensures { result ≡ if self.now.judges then Some (record { peer = fresh; taken = 0 }) else None }
    {
        if self.judges {
            Some(Scout::new(self.alloc))
        } else {
            None
        }
    }

    /// Whether the head of a request presents the token of an administrator.
    ///
    /// # Errors
    /// As of `look`.
    pub fn is_admin(&self, head: &[u8]) -> Result<bool, Fault>
        ensures { IfOk result (λ is. (h : RequestHead) (rest : List ℕ) → ReadsRequest (window head.now) h rest → length h.fields ≤ most_fields
            → is ≡ opens_admin self.now (field_in (codes "authorization") (map name_and_value h.fields))) }
    {
        if self.admins.is_asking(head) {
            return Ok(true);
        }
        match presented_in(head) {
            None => Ok(false),
            Some(token) => Ok(self.known.grants(self.alloc, self.second, token, ADMIN)?),
        }
    }
}

//! `Readers`: which role reads which circuit of a relation; readers come, move to other circuits, and go.
//!
//! Several readers may read one circuit. A circuit that loses its last reader is dropped, and its place is free for another one:
//! the invariant says that the circuits that are held are those that some role reads.
//!
//! The fields of `Readers` can be seen in this crate alone. So iv_store says by a closure which readers stay (`retain`), and the
//! clause speaks of what it answers. `renew` is public for two edits of iv_engine alone.
ghost use Rattle.std.specs.Prelude.{◌≡◌, [], ◌∷◌, ◌==◌, ◌&&◌, ◌<◌, ◌≤◌, ℕ, OnOk, OnErr, IfOk, IfSome, List, false, get_or, is_some, length, option_map, position, true};
ghost use Rattle.std.specs.List.{AllByRecursion};
ghost use Rattle.iv_readers.specs.Readers.{RoleCircuit, is_for, IsServed, opened_at, AreLeft, some_exempt};
ghost use Rattle.iv_circuit.specs.Nodes.{total_of};
ghost use Rattle.iv_readers.specs.Rows.{AreInOrder, shared_rows};
ghost use Rattle.iv_readers.specs.Held.{AreLeftTo, AreSameBut, HasComeTo, HasMovedTo, Reading, held_at, is_held, is_read_at};

use crate::ids::{CircuitId, ReaderId};
use crate::shown::{Held, circuit_at, rows_at};
use iv_access::{Access, RoleId};
use iv_circuit::Circuit;
use iv_command::SharedRows;
use iv_rows::RelId;
use std::alloc::{AllocError, Global};
use std::marker::Model;
use std::mem;
use std::snapshot::Snapshot;

/// For which subscriptions a circuit was opened, and how it was then, and how it was when the role came to it. No value of
/// it is kept when the program runs.
#[derive(Drop)]
pub enum Openings {
    /// The role came to the circuit, which was so.
    Came(Snapshot<Circuit>),
    /// A subscription of this number was opened at a circuit that was so, after the others.
    Opened(u64, Snapshot<Circuit>, Snapshot<Openings>),
}

/// A role that reads a relation, and the circuit. All subscriptions of the role to the relation read it.
#[derive(Drop)]
pub struct RoleReader {
    /// The role that reads.
    pub(crate) role: RoleId,
    /// The table or view that it reads.
    pub(crate) rel: RelId,
    /// The circuit.
    pub(crate) at: CircuitId,
    /// When its subscriptions were opened, which contracts alone read.
    opened: Snapshot<Openings>,
}

impl Model for RoleReader {
    ghost use Rattle.iv_readers.specs.Codes.{reader_code};
    ghost use Rattle.iv_readers.specs.Held.{Reading};
    ghost use Rattle.iv_readers.specs.Openings.{came_at, openings};

    ghost Value = { Reading };

    ghost coded = { reader_code };

    ghost view = { λ k. record { role = k.role.0; rel = k.rel.0; at = k.at.0; since = came_at k.opened.value; opened = openings k.opened.value } };
}

impl RoleReader {
    /// A reader of a relation: the role comes to the circuit, which is at the place.
    fn new(role: RoleId, rel: RelId, at: CircuitId, circuit: &Circuit) -> RoleReader
        ensures { result ≡ record { role = role.0; rel = rel.0; at = at.0; since = circuit.now.rounds; opened = [] } }
    {
        let came = Openings::Came(Snapshot::of(circuit));
        RoleReader {
            role,
            rel,
            at,
            opened: Snapshot::of(&came),
        }
    }

    /// Whether the role reads the circuit that is at the place.
    fn reads(&self, at: CircuitId) -> bool
        ensures { result ≡ (self.now.at == at.0) }
    {
        self.at.0 == at.0
    }

    /// The role moves to another circuit, which is at the place.
    fn move_to(&mut self, at: CircuitId, circuit: &Circuit)
        ensures { self.new ≡ record self.old { at = at.0; since = circuit.now.rounds; opened = [] } }
    {
        let came = Openings::Came(Snapshot::of(circuit));
        self.at = at;
        self.opened = Snapshot::of(&came);
    }

    /// Says for contracts alone that the role's subscription of the number reads the circuit from now on.
    fn open(&mut self, number: u64, circuit: &Circuit)
        ensures { self.new ≡ record self.old { opened = (number, circuit.now.rounds) ∷ self.old.opened } }
    {
        let none = Openings::Came(Snapshot::of(circuit));
        let before = mem::replace(&mut self.opened, Snapshot::of(&none));
        let opened = Openings::Opened(number, Snapshot::of(circuit), before);
        self.opened = Snapshot::of(&opened);
    }
}

/// A place at which no circuit is held.
fn free_place(held: &[Option<Held>]) -> CircuitId
    ensures free { is_held held.now result.0 ≡ false }
    ensures within { result.0 ≤ length held.now }
{
    match held.iter().position(|one| one.is_none()) {
        Some(at) => CircuitId(at),
        None => CircuitId(held.len()),
    }
}

/// Holds a circuit at the place, at which none is held. After an error nothing has changed.
fn hold(held: &mut Vec<Option<Held>>, at: CircuitId, circuit: Circuit) -> Result<(), AllocError>
    requires free { is_held held.old.items at.0 ≡ false }
    requires within { at.0 ≤ length held.old.items }
    ensures there { OnOk result (is_held held.new.items at.0 ≡ true) }
    ensures is { OnOk result (held_at held.new.items at.0 ≡ circuit) }
    ensures others { OnOk result (AreSameBut at.0 held.old.items held.new.items) }
    ensures kept { OnErr result (held.new.items ≡ held.old.items) }
{
    if at.0 < held.len() {
        drop(held[at.0].replace(Held::new(circuit)));
    } else {
        held.push(Some(Held::new(circuit)))?;
    }
    Ok(())
}

/// Whether some role reads the circuit.
fn is_read_at(readers: &[RoleReader], at: CircuitId) -> bool
    ensures { result ≡ is_read_at readers.now at.0 }
{
    readers.iter().any(|reader| reader.reads(at))
}

/// The place of the role among those who read the relation.
fn place_among(readers: &[RoleReader], role: RoleId, rel: RelId) -> Option<usize>
    ensures { result ≡ position (λ r. (r.role == role.0) && (r.rel == rel.0)) readers.now }
{
    readers
        .iter()
        .position(|reader| reader.role == role && reader.rel == rel)
}

/// Holds no circuit any more at the place.
fn empty(held: &mut [Option<Held>], at: CircuitId)
    requires { at.0 < length held.old }
    ensures gone { is_held held.new at.0 ≡ false }
    ensures others { AreSameBut at.0 held.old held.new }
{
    drop(held[at.0].take());
}

/// Drops the circuit, unless it is read.
fn keep_read(held: &mut [Option<Held>], at: CircuitId, is_read: bool)
    requires { at.0 < length held.old }
    ensures read { is_read ≡ true → held.new ≡ held.old }
    ensures gone { is_read ≡ false → is_held held.new at.0 ≡ false }
    ensures others { AreSameBut at.0 held.old held.new }
{
    if !is_read {
        empty(held, at);
    }
}

/// Drops the circuit, unless some role reads it.
fn leave(readers: &[RoleReader], held: &mut [Option<Held>], at: CircuitId)
    requires { at.0 < length held.old }
    ensures read { is_read_at readers.now at.0 ≡ true → held.new ≡ held.old }
    ensures gone { is_read_at readers.now at.0 ≡ false → is_held held.new at.0 ≡ false }
    ensures others { AreSameBut at.0 held.old held.new }
{
    keep_read(held, at, is_read_at(readers, at));
}

/// So many flags, none of them set.
fn unset(alloc: Global, many: usize) -> Result<Vec<bool>, AllocError>
    ensures long { IfOk result (λ flags. length flags.items ≡ many) }
    ensures unset { IfOk result (λ flags. (i : ℕ) → get_or flags.items i false ≡ false) }
{
    let mut flags = Vec::with_capacity(alloc, many)?;
    flags.resize(many, false)?;
    Ok(flags)
}

/// Sets the flags of the places whose circuits roles read.
fn set_read(readers: &[RoleReader], flags: &mut [bool])
    requires within { AllByRecursion (λ r. r.at < length flags.old) readers.now }
    requires unset { (i : ℕ) → get_or flags.old i false ≡ false }
    ensures { (i : ℕ) → get_or flags.new i false ≡ is_read_at readers.now i }
{
    for reader in readers {
        flags[reader.at.0] = true;
    }
}

/// Drops the circuits that no role reads: their places are free.
fn drop_free(held: &mut [Option<Held>], flags: &[bool])
    requires { length flags.now ≡ length held.old }
    ensures { (rs : List Reading) → ((i : ℕ) → get_or flags.now i false ≡ is_read_at rs i) → AreLeftTo rs held.old held.new }
{
    for at in 0..flags.len() {
        keep_read(held, CircuitId(at), flags[at]);
    }
}

/// Drops the circuits that no role reads, by flags that are not set yet.
fn drop_unread(readers: &[RoleReader], held: &mut [Option<Held>], flags: &mut [bool])
    requires long { length flags.old ≡ length held.old }
    requires unset { (i : ℕ) → get_or flags.old i false ≡ false }
    requires within { AllByRecursion (λ r. r.at < length flags.old) readers.now }
    ensures { AreLeftTo readers.now held.old held.new }
{
    set_read(readers, flags);
    drop_free(held, flags);
}

/// The roles that read, and the circuits that they read. Roles that see the same of a relation read one circuit.
#[derive(Drop)]
pub struct Readers {
    /// The roles that read, each with a relation.
    pub(crate) readers: Vec<RoleReader>,
    /// The circuits, each at its place.
    pub(crate) held: Vec<Option<Held>>,
}

impl Model for Readers {
    ghost use Rattle.std.specs.Prelude.{List, map};
    ghost use Rattle.iv_readers.specs.Codes.{circuits_code};
    ghost use Rattle.iv_readers.specs.Held.{AreThoseRead, read_from};
    ghost use Rattle.iv_readers.specs.Readers.{RoleCircuit};

    ghost Value = { List RoleCircuit };

    ghost coded = { circuits_code };

    ghost view = { λ c. map (read_from c.held.items) c.readers.items };

    ghost invariant = { λ c. AreThoseRead c.readers.items c.held.items };
}

impl Readers {
    /// No circuit, and no role that reads one.
    pub fn new(alloc: Global) -> Readers
        ensures { result ≡ [] }
    {
        Readers {
            readers: Vec::new(alloc),
            held: Vec::new(alloc),
        }
    }

    /// How many readers there are: each a role with a relation that it reads.
    pub fn len(&self) -> usize
        ensures { result ≡ length self.now }
    {
        self.readers.len()
    }

    /// The circuit that the reader reads.
    pub fn circuit(&self, reader: ReaderId) -> &Circuit
        requires { reader.0 < length self.now }
        ensures { (k : RoleCircuit) → k ≡ get_or self.now reader.0 k → result.now ≡ k.circuit }
    {
        circuit_at(&self.held, self.readers[reader.0].at)
    }

    /// What the circuit of the reader shows, for lines to share. It is listed once, until it changes.
    pub fn rows(
        &mut self,
        alloc: Global,
        reader: ReaderId,
    ) -> Result<Option<SharedRows>, AllocError>
        requires { reader.0 < length self.old }
        ensures rows { IfOk result (λ rows. (k : RoleCircuit) → k ≡ get_or self.old reader.0 k → AreInOrder (total_of k.circuit.node) false (shared_rows rows)) }
        ensures same { self.new ≡ self.old }
    {
        rows_at(alloc, &mut self.held, self.readers[reader.0].at)
    }

    /// The role of the reader.
    pub fn role(&self, reader: ReaderId) -> RoleId
        requires { reader.0 < length self.now }
        ensures { (k : RoleCircuit) → k ≡ get_or self.now reader.0 k → result.0 ≡ k.role }
    {
        self.readers[reader.0].role
    }

    /// The relation that the reader reads.
    pub fn rel(&self, reader: ReaderId) -> RelId
        requires { reader.0 < length self.now }
        ensures { (k : RoleCircuit) → k ≡ get_or self.now reader.0 k → result.0 ≡ k.rel }
    {
        self.readers[reader.0].rel
    }

    /// Which circuit the reader reads.
    pub fn circuit_of(&self, reader: ReaderId) -> CircuitId
        requires { reader.0 < length self.now }
        ensures { (k : RoleCircuit) → k ≡ get_or self.now reader.0 k → result.0 ≡ k.at }
    {
        self.readers[reader.0].at
    }

    /// The reader that is for the role and the relation, if there is one.
    pub fn reader_of(&self, role: RoleId, rel: RelId) -> Option<ReaderId>
        ensures { option_map (λ r. r.0) result ≡ position (is_for role.0 rel.0) self.now }
    {
        match place_among(&self.readers, role, rel) {
            Some(place) => Some(ReaderId(place)),
            None => None,
        }
    }

    /// A reader of the relation whose circuit shows, by the rights, what the role may see. One is found if policies have no effect on
    /// the role, and had none on some reader.
    pub fn twin(&self, access: &Access, role: RoleId, rel: RelId) -> Option<ReaderId>
        ensures serves { IfSome result (λ r. IsServed self.now access.now.rights role.0 rel.0 r.0) }
        ensures exempt { some_exempt self.now access.now.rights role.0 rel.0 ≡ true → is_some result ≡ true }
    {
        for (place, reader) in self.readers.iter().enumerate() {
            if reader.rel == rel && self.circuit(ReaderId(place)).serves(access, role) {
                return Some(ReaderId(place));
            }
        }
        None
    }

    /// Says for contracts alone that the subscription now reads the circuit of the reader.
    pub fn open(&mut self, reader: ReaderId, number: u64)
        requires { reader.0 < length self.old }
        ensures { self.new ≡ opened_at reader.0 number self.old }
    {
        let reader = &mut self.readers[reader.0];
        let circuit = circuit_at(&self.held, reader.at);
        reader.open(number, circuit);
    }

    /// A new reader: the role comes to a new circuit that it alone reads. After an error nothing is promised.
    pub fn add(&mut self, role: RoleId, rel: RelId, circuit: Circuit) -> Result<(), AllocError>
        ensures { OnOk result (HasComeTo self.old role.0 rel.0 circuit self.new) }
    {
        let at = free_place(&self.held);
        let reader = RoleReader::new(role, rel, at, &circuit);
        hold(&mut self.held, at, circuit)?;
        match self.readers.push(reader) {
            Ok(()) => Ok(()),
            Err(_) => {
                empty(&mut self.held, at);
                Err(AllocError)
            }
        }
    }

    /// A new reader: the role comes to the circuit of the other.
    pub fn join(&mut self, role: RoleId, rel: RelId, other: ReaderId) -> Result<(), AllocError>
        requires { other.0 < length self.old }
        ensures { OnOk result ((k : RoleCircuit) → k ≡ get_or self.old other.0 k → HasComeTo self.old role.0 rel.0 k.circuit self.new) }
    {
        let at = self.readers[other.0].at;
        let reader = RoleReader::new(role, rel, at, circuit_at(&self.held, at));
        self.readers.push(reader)?;
        Ok(())
    }

    /// Moves the reader to a new circuit of its own. After an error nothing is promised.
    pub fn renew(&mut self, reader: ReaderId, circuit: Circuit) -> Result<(), AllocError>
        requires { reader.0 < length self.old }
        ensures { OnOk result (HasMovedTo self.old reader.0 circuit self.new) }
    {
        let at = free_place(&self.held);
        hold(&mut self.held, at, circuit)?;
        let before = self.readers[reader.0].at;
        self.readers[reader.0].move_to(at, circuit_at(&self.held, at));
        leave(&self.readers, &mut self.held, before);
        Ok(())
    }

    /// Moves the reader to the circuit that the other one reads.
    pub fn move_to(&mut self, reader: ReaderId, other: ReaderId)
        requires reader { reader.0 < length self.old }
        requires other { other.0 < length self.old }
        ensures { (k : RoleCircuit) → k ≡ get_or self.old other.0 k → HasMovedTo self.old reader.0 k.circuit self.new }
    {
        let at = self.readers[other.0].at;
        let before = self.readers[reader.0].at;
        self.readers[reader.0].move_to(at, circuit_at(&self.held, at));
        leave(&self.readers, &mut self.held, before);
    }

    /// Keeps the readers for whose role and relation `stays` is true, and drops the circuits that nobody reads any more. After an error
    /// nothing is promised.
    pub fn retain<F: Fn(RoleId, RelId) -> bool>(
        &mut self,
        alloc: Global,
        stays: F,
    ) -> Result<(), AllocError>
        requires { F.IsAlwaysCallable stays }
        ensures { OnOk result (AreLeft (F.post stays) self.old self.new) }
    {
        let mut flags = unset(alloc, self.held.len())?;
        self.readers.retain(|reader| stays(reader.role, reader.rel));
        drop_unread(&self.readers, &mut self.held, &mut flags);
        Ok(())
    }
}

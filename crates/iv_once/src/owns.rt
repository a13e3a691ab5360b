//! `Own`, what is kept of one holder; and all of these by their holders.
ghost use Rattle.std.specs.Prelude.{◌≡◌, ◌+◌, ℕ, List, [], ◌∷◌, IfOk, OnOk, Option, None, Some, option_map, is_some, if◌then◌else◌, take, unwrap_or, bytes_eq, string_bytes};
ghost use Rattle.std.specs.Map.{update};
ghost use Rattle.std.specs.BTreeMap.{btree_map_len, get_by_text};
ghost use Rattle.iv_once.specs.Views.{IsPut};
ghost use Rattle.iv_once.specs.Names.{find_named, holders_with, own_in, spent_by, spent_more, with_entry, with_epoch};

use crate::asks::Named;
use std::alloc::{AllocError, Global};
use std::collections::{BTreeMap, VecDeque};
use std::marker::Model;

/// What is kept of one holder.
#[derive(Drop)]
pub(crate) struct Own {
    pub(crate) epoch: String,
    pub(crate) count: u64,
    pub(crate) recent: VecDeque<Named>,
}

impl Model for Own {
    ghost use Rattle.std.specs.Prelude.{string_bytes};
    ghost use Rattle.iv_once.specs.Names.{Own};

    ghost Value = { Own };

    ghost view = { λ o. record { epoch = string_bytes o.epoch; count = o.count; recent = o.recent.items } };
}

impl Own {
    /// The latest entry that bears the name.
    pub(crate) fn find(&self, name: &str) -> Option<&Named>
        ensures { option_map (λ e. e.now) result ≡ find_named name.now self.now.recent }
    {
        for place in 0..self.recent.len() {
            if let Some(named) = self.recent.get(place) {
                if named.ask.name.as_str() == name {
                    return Some(named);
                }
            }
        }
        None
    }

    /// One entry more; the last `most` are kept.
    pub(crate) fn push(&mut self, entry: Named, most: usize) -> Result<(), AllocError>
        ensures { OnOk result (self.new ≡ with_entry most entry self.old) }
    {
        let Some(count) = self.count.checked_add(1) else {
            return Err(AllocError);
        };
        self.recent.push_front(entry)?;
        self.recent.truncate(most);
        self.count = count;
        Ok(())
    }

    /// Another epoch.
    fn renew(&mut self, alloc: Global, epoch: &str) -> Result<(), AllocError>
        ensures { OnOk result (self.new ≡ with_epoch epoch.now self.old) }
    {
        self.epoch = String::from_str(alloc, epoch)?;
        Ok(())
    }

    /// With so many entries before those that follow.
    pub(crate) fn begun(alloc: Global, epoch: &str, count: u64) -> Result<Own, AllocError>
        ensures { IfOk result (λ o. o ≡ record { epoch = epoch.now; count = count; recent = [] }) }
    {
        Ok(Own {
            epoch: String::from_str(alloc, epoch)?,
            count,
            recent: VecDeque::new(alloc),
        })
    }
}

/// Takes what is kept of the holder out of all.
pub(crate) fn own_taken(
    alloc: Global,
    owns: &mut BTreeMap<String, Own>,
    epoch: &str,
    holder: &str,
) -> Result<Own, AllocError>
    ensures own { IfOk result (λ o. o ≡ own_in (get_by_text owns.old) epoch.now holder.now) }
    ensures others { (h : List ℕ) → get_by_text owns.new h ≡ update bytes_eq (get_by_text owns.old) holder.now None h }
    ensures len { btree_map_len owns.new + (if is_some (get_by_text owns.old holder.now) then 1 else 0) ≡ btree_map_len owns.old }
{
    match owns.remove(holder) {
        Some(own) => Ok(own),
        None => Own::begun(alloc, epoch, 0),
    }
}

/// Puts what is kept of the holder to all, in place of what was kept of it.
pub(crate) fn own_put(
    owns: &mut BTreeMap<String, Own>,
    holder: String,
    own: Own,
) -> Result<(), AllocError>
    ensures others { OnOk result (IsPut (get_by_text owns.old) (get_by_text owns.new) (string_bytes holder) own) }
    ensures len { OnOk result (btree_map_len owns.new ≡ holders_with (get_by_text owns.old) (string_bytes holder) (btree_map_len owns.old)) }
{
    owns.insert(holder, own)?;
    Ok(())
}

/// One entry more of its holder, of which the last `most` are kept.
pub(crate) fn push_own(
    alloc: Global,
    owns: &mut BTreeMap<String, Own>,
    epoch: &str,
    entry: Named,
    most: usize,
) -> Result<(), AllocError>
    ensures others { let owns_old = get_by_text owns.old in let h = entry.ask.holder in OnOk result (IsPut owns_old (get_by_text owns.new) h (with_entry most entry (own_in owns_old epoch.now h))) }
    ensures len { OnOk result (btree_map_len owns.new ≡ holders_with (get_by_text owns.old) entry.ask.holder (btree_map_len owns.old)) }
{
    let holder = String::from_str(alloc, &entry.ask.holder)?;
    let mut own = own_taken(alloc, owns, epoch, &holder)?;
    own.push(entry, most)?;
    own_put(owns, holder, own)?;
    Ok(())
}

/// The holder gets a new epoch.
pub(crate) fn renew_own(
    alloc: Global,
    owns: &mut BTreeMap<String, Own>,
    epoch: &str,
    holder: &str,
    new: &str,
) -> Result<(), AllocError>
    ensures others { let owns_old = get_by_text owns.old in OnOk result (IsPut owns_old (get_by_text owns.new) holder.now (with_epoch new.now (own_in owns_old epoch.now holder.now))) }
    ensures len { OnOk result (btree_map_len owns.new ≡ holders_with (get_by_text owns.old) holder.now (btree_map_len owns.old)) }
{
    let key = String::from_str(alloc, holder)?;
    let mut own = own_taken(alloc, owns, epoch, holder)?;
    own.renew(alloc, new)?;
    own_put(owns, key, own)?;
    Ok(())
}

/// How many refusals of the holder are not forgiven.
pub(crate) fn spent_by(spent: &BTreeMap<String, u64>, holder: &str) -> u64
    ensures { result ≡ spent_by (get_by_text spent.now) holder.now }
{
    match spent.get(holder) {
        Some(count) => *count,
        None => 0,
    }
}

/// One more refusal of the holder.
pub(crate) fn spend(
    alloc: Global,
    spent: &mut BTreeMap<String, u64>,
    holder: &str,
) -> Result<(), AllocError>
    ensures { OnOk result (IsPut (get_by_text spent.old) (get_by_text spent.new) holder.now (spent_by (get_by_text spent.old) holder.now + 1)) }
{
    let Some(count) = spent_by(spent, holder).checked_add(1) else {
        return Err(AllocError);
    };
    let key = String::from_str(alloc, holder)?;
    spent.insert(key, count)?;
    Ok(())
}

/// One more refusal of the holder, if it was one.
pub(crate) fn blame(
    alloc: Global,
    spent: &mut BTreeMap<String, u64>,
    refused: bool,
    holder: &str,
) -> Result<(), AllocError>
    ensures { OnOk result ((h : List ℕ) → get_by_text spent.new h ≡ spent_more (get_by_text spent.old) (if refused then Some holder.now else None) h) }
{
    if refused {
        spend(alloc, spent, holder)?;
    }
    Ok(())
}

//! Reading regions by what is kept of them, each in at most three tries.
ghost use Rattle.std.specs.Prelude.{◌≡◌, ◌<◌, ◌==◌, ◌/◌, ◌+◌, ◌*◌, ◌&&◌, if◌then◌else◌, true, nat_lt, map, option_map, All, length, position, Ok, Some, None, IfOk, IfSome, OnOk, MatchResult};
ghost use Rattle.std.specs.Option.{option_copied};
ghost use Rattle.mmv_layout.specs.Rows.{layout_of};
ghost use Rattle.region_core.specs.declared.mode.Mode.TheVariants.{Idle};
ghost use Rattle.region_rule.specs.Reads.{ReadsImage};
ghost use Rattle.region_rule.specs.Seats.{IsSame};
ghost use Rattle.region_words.specs.Images.{mmv};
ghost use Rattle.fetch_answers.specs.Readings.{reading_of};
ghost use Rattle.fetch_engine.specs.Hows.{shown_by};
ghost use Rattle.fetch_engine.specs.Kept.{AreKept, AreNamesOf, HasNamesOf, HaveOneForm, IsKeptBy, ReadAtKeeping, ShowsTold, TryFails, TryStays, WholeFails, adding_of, alone, kept_in, known_at, kept_of, seated_by};
ghost use Rattle.fetch_engine.specs.Servers.{IsSeated};
ghost use Rattle.fetch_engine.specs.Tries.{ReadsKeeping};
ghost use Rattle.fetch_engine.specs.Visits.{AreLoaded, AreReadKeeping, IsLoaded, IsReadBy, IsReadForKeeping, lies_in};
ghost use Rattle.fetch_engine.specs.declared.visits.How.TheVariants.{Values};

use crate::again::read_again;
use crate::server::Mounted;
use fetch_answers::{Known, Named, Told, names_known};
use pcp_base::{Duplicate, NoMemory};
use region_words::{Pass, ReadFault, Region, ValueFault};
use std::alloc::Global;
use std::slice::from_ref;

/// How often a region is read again while its two generations differ.
const TRIES: u32 = 3;

/// Reads all words of a region.
#[tactic(auto, using(crate::proofs::Holding::whole_kept, crate::proofs::Holding::whole_loaded, crate::proofs::Holding::whole_fails, crate::proofs::Holding::not_loaded, crate::proofs::Holding::not_stays))]
fn read_whole(alloc: Global, region: &Region, pass: &mut Pass) -> Result<Told, ReadFault>
    requires here { pass.old.region ≡ region.now }
    ensures reads { MatchResult result (λ told. ReadsImage mmv pass.old.view told pass.new.view) (WholeFails pass.old.view pass.new.view) }
    ensures stays { MatchResult result (λ _. IsSame Idle Idle pass.old pass.new) (TryStays pass.old pass.new) }
    ensures kept { IfOk result (IsKeptBy pass.new) }
    ensures loads { IsLoaded pass.old pass.new }
{
    let image = region.read_image(alloc, pass)?;
    match Told::of_image(alloc, image) {
        Ok(told) => Ok(told),
        Err(NoMemory) => Err(ReadFault::NoMemory),
    }
}

/// How a try read a region.
#[derive(Clone, Copy)]
pub enum How {
    /// By its value words alone.
    Values,
    /// By all words.
    Image,
}

/// Tries to read a region by what is kept of it: its value words alone where it has the generation that is kept, and else all
/// words. What was read is kept then; a try that is refused leaves what is kept.
#[tactic(auto, using(crate::proofs::Holding::whole_told, crate::proofs::Holding::whole_refused, crate::proofs::Holding::again_told, crate::proofs::Holding::again_form, crate::proofs::Holding::again_refused, crate::proofs::Holding::anew_shown, crate::proofs::Holding::anew_fails, crate::proofs::Holding::anew_loaded, crate::proofs::Holding::again_unloaded, crate::proofs::Holding::again_loaded_on, crate::proofs::Holding::refused_loaded, crate::proofs::Holding::kept_loaded, crate::proofs::Holding::stays_on, crate::proofs::Tries::same_trans, crate::proofs::Tries::loaded_trans))]
fn try_region(
    alloc: Global,
    region: &Region,
    pass: &mut Pass,
    kept: &mut Option<Told>,
) -> Result<How, ReadFault>
    requires here { pass.old.region ≡ region.now }
    requires kept { IfSome kept.old (IsKeptBy pass.old) }
    ensures reads { MatchResult result (λ _. ShowsTold kept.old pass.old.view kept.new pass.new.view) (TryFails kept.old pass.old.view kept.new pass.new.view) }
    ensures stays { MatchResult result (λ _. IsSame Idle Idle pass.old pass.new) (TryStays pass.old pass.new) }
    ensures form { result ≡ Ok Values → HaveOneForm kept.old kept.new }
    ensures kept { IfSome kept.new (IsKeptBy pass.new) }
    ensures loads { IsLoaded pass.old pass.new }
{
    let Some(mut told) = kept.take() else {
        *kept = Some(read_whole(alloc, region, pass)?);
        return Ok(How::Image);
    };
    let again = read_again(region, pass, &mut told);
    *kept = Some(told);
    match again {
        Ok(()) => Ok(How::Values),
        Err(ValueFault::Again { first, last }) => Err(ReadFault::Again { first, last }),
        Err(ValueFault::Newer { found: _found }) => {
            *kept = Some(read_whole(alloc, region, pass)?);
            Ok(How::Image)
        }
    }
}

/// Reads a region in at most three tries by what is kept of it; only a refusal uses one up, and `None` comes where three were
/// refused. What was read is kept for the next reading, and what is kept of a region that was missed stays.
#[tactic(auto, using(crate::proofs::Tries::none_failed, crate::proofs::Tries::fails_by, crate::proofs::Tries::shows_told, crate::proofs::Tries::shows_kept, crate::proofs::Tries::gives_up, crate::proofs::Tries::keeps_on))]
fn read_kept(
    alloc: Global,
    region: &Region,
    pass: &mut Pass,
    kept: &mut Option<Told>,
) -> Result<Option<How>, NoMemory>
    requires here { pass.old.region ≡ region.now }
    requires kept { IfSome kept.old (IsKeptBy pass.old) }
    ensures read { IfOk result (λ how. IsReadBy pass.old (option_map layout_of (shown_by how kept.new)) pass.new) }
    ensures keeping { IfOk result (λ how. ReadsKeeping kept.old pass.old.view (option_map layout_of (shown_by how kept.new)) kept.new pass.new.view) }
    ensures form { result ≡ Ok (Some Values) → HaveOneForm kept.old kept.new }
    ensures kept { IfSome kept.new (IsKeptBy pass.new) }
    ensures loads { IsLoaded pass.old pass.new }
{
    for _tries in 0..TRIES {
        match try_region(alloc, region, pass, kept) {
            Ok(how) => return Ok(Some(how)),
            Err(ReadFault::Again { .. }) => {}
            Err(ReadFault::NoMemory) => return Err(NoMemory),
        }
    }
    Ok(None)
}

/// Sees to it that what is known of a region bears its name and cluster. Tells whether it bore them.
#[tactic(auto, using(crate::proofs::Naming::placed_before))]
fn place_known(alloc: Global, row: &Mounted, known: &mut Known) -> Result<bool, NoMemory>
    requires cluster { row.now.cluster < 4096 }
    ensures file { OnOk result (known.new.file ≡ row.now.file) }
    ensures cluster { OnOk result (known.new.cluster ≡ row.now.cluster) }
    ensures image { known.new.image ≡ known.old.image }
    ensures same { IfOk result (λ same. same ≡ true → known.new ≡ known.old) }
{
    let same = known.cluster == row.cluster;
    known.cluster = row.cluster;
    if known.file.as_slice() == row.file.as_slice() {
        return Ok(same);
    }
    known.file = row.file.copy(alloc)?;
    Ok(false)
}

/// Takes what is kept of a region.
fn take_kept(known: &mut Known, spare: &mut Option<Told>) -> Option<Told>
    ensures kept { result ≡ kept_of known.old.image spare.old }
    ensures none { known.new.image ≡ None }
    ensures spare { spare.new ≡ None }
    ensures file { known.new.file ≡ known.old.file }
    ensures cluster { known.new.cluster ≡ known.old.cluster }
{
    match known.told.take() {
        Some(told) => {
            *spare = None;
            Some(told)
        }
        None => spare.take(),
    }
}

/// Reads what is known of a region by what is kept of it. What is kept of a region that was missed is put aside. Tells whether
/// what was known was read again by its value words alone: then the region adds the same names to the name space.
#[tactic(auto, using(crate::proofs::Holding::alone_keeps, crate::proofs::Holding::alone_kept, crate::proofs::Naming::adds_the_same))]
fn read_known(
    alloc: Global,
    row: &Mounted,
    pass: &mut Pass,
    known: &mut Known,
    spare: &mut Option<Told>,
) -> Result<bool, NoMemory>
    requires here { pass.old.region ≡ row.now.region }
    requires cluster { row.now.cluster < 4096 }
    requires kept { IfSome (kept_of known.old.image spare.old) (IsKeptBy pass.old) }
    ensures file { OnOk result (known.new.file ≡ row.now.file) }
    ensures cluster { OnOk result (known.new.cluster ≡ row.now.cluster) }
    ensures read { OnOk result (IsReadBy pass.old (option_map layout_of known.new.image) pass.new) }
    ensures keeping { OnOk result (ReadsKeeping (kept_of known.old.image spare.old) pass.old.view (option_map layout_of known.new.image) (kept_of known.new.image spare.new) pass.new.view) }
    ensures kept { IfSome (kept_of known.new.image spare.new) (IsKeptBy pass.new) }
    ensures names { IfOk result (λ same. same ≡ true → adding_of known.new ≡ adding_of known.old) }
    ensures loads { IsLoaded pass.old pass.new }
{
    let same = place_known(alloc, row, known)?;
    let had = known.told.is_some();
    let mut kept = take_kept(known, spare);
    match read_kept(alloc, &row.region, pass, &mut kept) {
        Ok(Some(How::Values)) => {
            known.told = kept;
            Ok(same && had)
        }
        Ok(Some(How::Image)) => {
            known.told = kept;
            Ok(false)
        }
        Ok(None) => {
            *spare = kept;
            Ok(false)
        }
        Err(NoMemory) => {
            *spare = kept;
            Err(NoMemory)
        }
    }
}

/// A name space that is kept, where the regions add the same names still.
fn kept_if(same: bool, named: Option<Named>) -> Option<Named>
    ensures { result ≡ (if same then named else None) }
{
    if same { named } else { None }
}

/// Reads what is known of each region, in order, by what is kept of it. The name space that is kept is dropped unless each
/// region adds the same names still.
#[tactic(auto, using(crate::proofs::Visited::next_read, crate::proofs::Visited::all_shots_read, crate::proofs::Visited::loaded_at, crate::proofs::Visited::many_there, crate::proofs::Visited::one_there, crate::proofs::Holding::known_at, crate::proofs::Holding::known_set, crate::proofs::Holding::long_set, crate::proofs::Holding::long_kept, crate::proofs::SeatPasses::is_there))]
pub fn read_all(
    alloc: Global,
    rows: &[Mounted],
    passes: &mut Vec<Pass>,
    known: &mut Vec<Known>,
    spares: &mut Vec<Option<Told>>,
    named: &mut Option<Named>,
) -> Result<(), NoMemory>
    requires seated { IsSeated rows.now passes.old.items }
    requires clusters { All (λ row. row.cluster < 4096) rows.now }
    requires kept { AreKept passes.old.items (kept_in known.old.items spares.old.items) }
    requires many { length spares.old.items ≡ length known.old.items }
    requires named { IfSome named.old (AreNamesOf known.old.items) }
    ensures read { OnOk result (AreReadKeeping rows.now (seated_by passes.old.items known.old.items spares.old.items named.old) (map reading_of known.new.items) (seated_by passes.new.items known.new.items spares.new.items named.new)) }
    ensures kept { AreKept passes.new.items (kept_in known.new.items spares.new.items) }
    ensures many { length spares.new.items ≡ length known.new.items }
    ensures named { IfSome named.new (AreNamesOf known.new.items) }
    ensures loads { AreLoaded passes.old.items passes.new.items }
{
    let mut still = named.take();
    for at in 0..rows.len() {
        let same = read_known(
            alloc,
            &rows[at],
            &mut passes[at],
            &mut known[at],
            &mut spares[at],
        )?;
        still = kept_if(same, still);
    }
    *named = still;
    Ok(())
}

/// The position of the first region in whose cluster a number lies.
fn position_in(rows: &[Mounted], word: u32) -> Option<usize>
    ensures value { result ≡ position (λ row. nat_lt row.cluster 4096 && word / 1024 == 70 * 4096 + row.cluster) rows.now }
    ensures bound { IfSome result (λ at. at < length rows.now) }
{
    rows.iter().position(|row| row.cluster < 4096 && word / 1024 == 70 * 4096 + row.cluster)
}

/// The position of the region in whose cluster a number lies.
fn position_for(rows: &[Mounted], word: u32) -> Option<usize>
    requires { All (λ row. row.cluster < 4096) rows.now }
    ensures value { result ≡ position (lies_in word) rows.now }
    ensures bound { IfSome result (λ at. at < length rows.now) }
{
    position_in(rows, word)
}

/// Keeps the name space of what is known of the regions, unless it is kept.
pub fn keep_names(alloc: Global, known: &[Known], named: &mut Option<Named>) -> Result<(), NoMemory>
    requires { IfSome named.old (AreNamesOf known.now) }
    ensures named { IfSome named.new (AreNamesOf known.now) }
    ensures kept { OnOk result (HasNamesOf known.now named.new) }
{
    if named.is_some() {
        return Ok(());
    }
    *named = Some(names_known(alloc, known)?);
    Ok(())
}

/// Reads what is known of the region at a position; the others aren't read. The name space that is kept is dropped unless the
/// region adds the same names still.
#[tactic(auto, using(crate::proofs::Visited::read_there, crate::proofs::Visited::loaded_for, crate::proofs::Holding::known_at, crate::proofs::Holding::known_set, crate::proofs::Holding::long_set, crate::proofs::Holding::long_kept, crate::proofs::Naming::names_stay, crate::proofs::SeatPasses::is_there, crate::proofs::SeatPasses::is_here))]
fn read_at(
    alloc: Global,
    rows: &[Mounted],
    passes: &mut Vec<Pass>,
    known: &mut Vec<Known>,
    spares: &mut Vec<Option<Told>>,
    named: &mut Option<Named>,
    at: usize,
) -> Result<(), NoMemory>
    requires seated { IsSeated rows.now passes.old.items }
    requires clusters { All (λ row. row.cluster < 4096) rows.now }
    requires kept { AreKept passes.old.items (kept_in known.old.items spares.old.items) }
    requires many { length spares.old.items ≡ length known.old.items }
    requires named { IfSome named.old (AreNamesOf known.old.items) }
    requires there { at < length rows.now }
    ensures read { OnOk result (ReadAtKeeping rows.now (seated_by passes.old.items known.old.items spares.old.items named.old) at known.new.items (seated_by passes.new.items known.new.items spares.new.items named.new)) }
    ensures kept { AreKept passes.new.items (kept_in known.new.items spares.new.items) }
    ensures many { length spares.new.items ≡ length known.new.items }
    ensures named { IfSome named.new (AreNamesOf known.new.items) }
    ensures loads { AreLoaded passes.old.items passes.new.items }
{
    let still = named.take();
    let (pass, row) = (&mut passes[at], &rows[at]);
    let same = read_known(alloc, row, pass, &mut known[at], &mut spares[at])?;
    *named = kept_if(same, still);
    Ok(())
}

/// Reads what is known of the region in whose cluster a number lies, and tells its position, if there is one; the others aren't
/// read.
#[tactic(auto, using(crate::proofs::Visited::none_for, crate::proofs::Visited::none_loaded, crate::proofs::Visited::one_for, crate::proofs::Holding::long_kept, crate::proofs::SeatPasses::is_there))]
pub fn read_for(
    alloc: Global,
    rows: &[Mounted],
    passes: &mut Vec<Pass>,
    known: &mut Vec<Known>,
    spares: &mut Vec<Option<Told>>,
    named: &mut Option<Named>,
    word: u32,
) -> Result<Option<usize>, NoMemory>
    requires seated { IsSeated rows.now passes.old.items }
    requires clusters { All (λ row. row.cluster < 4096) rows.now }
    requires kept { AreKept passes.old.items (kept_in known.old.items spares.old.items) }
    requires many { length spares.old.items ≡ length known.old.items }
    requires named { IfSome named.old (AreNamesOf known.old.items) }
    ensures read { IfOk result (λ at. IsReadForKeeping word rows.now (seated_by passes.old.items known.old.items spares.old.items named.old) (map reading_of (known_at known.new.items at)) (seated_by passes.new.items known.new.items spares.new.items named.new)) }
    ensures kept { AreKept passes.new.items (kept_in known.new.items spares.new.items) }
    ensures many { length spares.new.items ≡ length known.new.items }
    ensures named { IfSome named.new (AreNamesOf known.new.items) }
    ensures loads { AreLoaded passes.old.items passes.new.items }
{
    let Some(at) = position_for(rows, word) else {
        return Ok(None);
    };
    read_at(alloc, rows, passes, known, spares, named, at)?;
    Ok(Some(at))
}

/// What is known of a region, alone.
fn alone(found: Option<&Known>) -> &[Known]
    ensures { result.now ≡ alone (option_copied found.entry) }
{
    match found {
        Some(one) => from_ref(one),
        None => &[],
    }
}

/// What is known of the region at a position, if there is one.
pub fn known_at(known: &[Known], at: Option<usize>) -> &[Known]
    ensures { result.now ≡ known_at known.now at }
{
    match at {
        Some(at) => alone(known.get(at)),
        None => &[],
    }
}

//! The loads and stores that lines of watched sites name.

ghost use Rattle.std.specs.Prelude.{◌≡◌, ◌<◌, ◌^◌, IfSome, length, option_copied, slice_get};
ghost use Rattle.std.specs.List.{flat_map, list_any};
ghost use Rattle.run_types.specs.Site.{is_site};
ghost use Rattle.rc_base.specs.Failures.{Gives, or_error};
ghost use Rattle.case_text.specs.Watch.{function_named, is_access, site_of, with_watch};
ghost use Rattle.case_text.specs.Words.{watched};
ghost use Rattle.case_text.specs.declared.error.CaseError.TheVariants as errors;

use crate::error::CaseError;
use crate::words::WatchWords;
use ir_types::{Block, Inst, List, Module, Site};
use rc_base::Failure;

/// How many sites a case may name.
const MOST_SITES: usize = 256;

/// The number of the first function of this name.
fn function_named(code: &Module, name: &[u8]) -> Option<usize>
    ensures value { result ≡ function_named code.now name.now }
    ensures bound { IfSome result (λ function. function < length code.now.functions) }
{
    code.functions
        .as_slice()
        .iter()
        .position(|function| function.name.as_slice() == name)
}

/// The instruction of this number, counted from 0 through all the blocks.
fn inst_of(blocks: &[Block], number: usize) -> Option<&Inst>
    ensures { option_copied result ≡ slice_get (flat_map (λ block. block.insts) blocks.now) number }
{
    blocks
        .iter()
        .flat_map(|block| block.insts.as_slice().iter())
        .nth(number)
}

fn is_access(inst: &Inst) -> bool
    ensures { result ≡ is_access inst.now }
{
    matches!(inst, Inst::Load { .. } | Inst::Store { .. })
}

/// The load or store of this number in the function of this name.
#[tactic(auto, unfolding(crate::specs::Watch::site_of))]
fn site_of(code: &Module, line: u32, name: &[u8], inst: u32) -> Result<Site, Failure<CaseError>>
    ensures { Gives (λ site. site) result (or_error (errors.Site line) (site_of code.now (watched name.now inst))) }
{
    let Some(function) = function_named(code, name) else {
        return Err(Failure::Refused(CaseError::Site { line }));
    };
    let blocks = code.functions.items[function].blocks.as_slice();
    if !inst_of(blocks, inst as usize).is_some_and(is_access) {
        return Err(Failure::Refused(CaseError::Site { line }));
    }
    // No checked module has more functions than a site can number, since it has fewer than 2^32 lines.
    let Ok(function) = u32::try_from(function) else {
        return Err(Failure::NoMemory);
    };
    Ok(Site { function, inst })
}

fn is_named(site: Site, sites: &[Site]) -> bool
    ensures { result ≡ list_any (is_site site) sites.now }
{
    sites.iter().any(|other| *other == site)
}

/// Adds the site that a line of this number names.
#[tactic(auto, unfolding(crate::specs::Watch::with_watch))]
pub fn add_site(
    code: &Module,
    line: u32,
    words: &WatchWords<'_>,
    sites: &mut List<Site>,
) -> Result<(), Failure<CaseError>>
    ensures { Gives (λ _. sites.new) result (with_watch code.now line words.now sites.old) }
{
    if words.inst > u128::from(u32::MAX) || sites.len() >= MOST_SITES {
        return Err(Failure::Refused(CaseError::Range { line }));
    }
    let site = site_of(code, line, words.name, words.inst as u32)?;
    if is_named(site, sites.as_slice()) {
        return Err(Failure::Refused(CaseError::Site { line }));
    }
    sites.items.push(site)?;
    Ok(())
}

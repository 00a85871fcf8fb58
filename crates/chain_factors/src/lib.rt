// The factors of one level, put into the record: its singles, then its loop groups, each with its mode.
#![tactic(auto)]

ghost use Rattle.std.specs.Prelude.{◌≡◌, cond, ◌&&◌, not, ◌+◌, ◌≤◌, eqb};
ghost use Rattle.nameset.specs.Places.{places};
ghost use Rattle.nameset.specs.Set.{member};
ghost use Rattle.nameset.specs.Rows.{IsRows};
ghost use Rattle.chain_levels.specs.Below.{any_below, count_below};
ghost use Rattle.chain_levels.specs.Chain.{factors, with_any, with_each, with_both};
ghost use Rattle.chain_groups.specs.Groups.{holds_in};

use chain_groups::group;
use model::Chain;
use nameset::NameSet;

// Whether the set has just one name.
fn just_one(s: NameSet) -> bool
    ensures { result ≡ eqb (count_below places (member s)) 1 }
{
    !s.is_empty() && s.rest().is_empty()
}

// Whether a level with these singles and smallest names of groups has just one factor.
fn one_factor(singles: NameSet, leaders: NameSet) -> bool
    ensures { result ≡ eqb (factors places (member singles) (member leaders)) 1 }
{
    if singles.is_empty() {
        just_one(leaders)
    } else {
        leaders.is_empty()
    }
}

// The record with the names of the set as one factor, if there are any.
pub fn with_any(m: Chain, names: NameSet, mode: u8) -> Chain
    requires { m.count + cond (any_below places (member names)) 1 0 ≤ places }
    ensures { result ≡ with_any places (member names) mode m }
{
    if names.is_empty() {
        m
    } else {
        m.with_factor(names, mode)
    }
}

// The record with a factor for each loop group, in order of its smallest number.
fn with_groups(m: Chain, reach: &[u64], behind: &[u64], leaders: NameSet, mode: u8) -> Chain
    requires { (m.count + count_below places (member leaders) ≤ places) × IsRows places reach.now × IsRows places behind.now }
    ensures { result ≡ with_each (member leaders) (holds_in reach.now behind.now) mode places m }
{
    let mut out = m;
    for k in leaders.names() {
        out = out.with_factor(group(reach, behind, k), mode);
    }
    out
}

// The record with the factors of one level: its singles first, then its loop groups.
pub fn with_level(
    m: Chain,
    reach: &[u64],
    behind: &[u64],
    singles: NameSet,
    leaders: NameSet,
    skipped: bool,
) -> Chain
    requires { (m.count + factors places (member singles) (member leaders) ≤ places) × IsRows places reach.now × IsRows places behind.now }
    ensures { result ≡ with_both places (not skipped && eqb (factors places (member singles) (member leaders)) 1) (member singles) (member leaders) (holds_in reach.now behind.now) m }
{
    // The names of a level must come where it is not skipped and has just one factor.
    let fixed = !skipped && one_factor(singles, leaders);
    let (singles_mode, group_mode) = if fixed { (0, 2) } else { (1, 3) };
    let first = with_any(m, singles, singles_mode);
    with_groups(first, reach, behind, leaders, group_mode)
}

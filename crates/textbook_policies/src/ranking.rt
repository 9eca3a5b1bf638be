//! Pages in the order in which they leave.

ghost use Rattle.std.specs.Prelude.{◌≡◌, ◌<◌, ◌^◌, [], cond, length, drop, OnOk, OnErr, IfNone, Some, None};
ghost use Rattle.std.specs.HashMap.{get};
ghost use Rattle.clock_policy.specs.declared.key.Key.{Key};
ghost use Rattle.page_policies.specs.Strings.{is_page};
ghost use Rattle.textbook_policies.specs.Ranks.{page_of, rank_in, unranked, placed, room_made, IsRanking};

use crate::ranked::Ranked;
use clock_policy::Key;
use std::alloc::{AllocError, Global};
use std::collections::{BTreeSet, HashMap};
use std::marker::Model;

/// Pages in the order of their ranks, none twice, in which each page is found at once.
#[derive(Drop)]
pub(crate) struct Ranking {
    order: BTreeSet<Ranked>,
    ranks: HashMap<Key, Ranked>,
}

/// Seen as the pages, from the one that leaves first.
impl Model for Ranking {
    ghost use Rattle.std.specs.Prelude.{List};
    ghost use Rattle.std.specs.HashMap.{get};
    ghost use Rattle.page_policies.specs.Strings.{is_page};
    ghost use Rattle.textbook_policies.specs.declared.ranked.Ranked.{Ranked};
    ghost use Rattle.textbook_policies.specs.Ranks.{IsRanking};

    ghost Value = { List Ranked };

    ghost view = { λ ranking. ranking.order.keys };

    ghost invariant = { λ ranking. IsRanking ranking.order.keys (λ q. get is_page ranking.ranks q) };
}

/// No page has a rank.
fn no_ranks(alloc: Global) -> HashMap<Key, Ranked>
    ensures { (q : Key) → get is_page result q ≡ None }
{
    HashMap::new(alloc)
}

/// A page has no rank any more.
fn forget(ranks: &mut HashMap<Key, Ranked>, page: Key)
    ensures { (q : Key) → get is_page ranks.new q ≡ cond (is_page page q) None
        (get is_page ranks.old q) }
{
    ranks.remove(&page);
}

/// A page has this rank from now on.
fn note(ranks: &mut HashMap<Key, Ranked>, page: Key, rank: Ranked) -> Result<(), AllocError>
    ensures noted { OnOk result ((q : Key) → get is_page ranks.new q ≡ cond (is_page page q) (Some
        rank) (get is_page ranks.old q)) }
    ensures err { OnErr result ((q : Key) → get is_page ranks.new q ≡ get is_page ranks.old q) }
{
    match ranks.insert(page, rank) {
        Ok(_) => Ok(()),
        Err(_) => Err(AllocError),
    }
}

/// The first page leaves, if there is one.
#[tactic(auto, using(crate::proofs::RankLaws::first_left))]
fn let_first_go(order: &mut BTreeSet<Ranked>, ranks: &mut HashMap<Key, Ranked>)
    requires { IsRanking order.old.keys (λ q. get is_page ranks.old q) }
    ensures ranking { IsRanking order.new.keys (λ q. get is_page ranks.new q) }
    ensures others { order.new.keys ≡ drop 1 order.old.keys }
{
    if let Some(first) = order.pop_first() {
        forget(ranks, first.page());
    }
}

/// A page with its rank is taken out.
#[tactic(auto, using(crate::proofs::RankLaws::rank_left, crate::proofs::RankLaws::removed, crate::proofs::RankLaws::gone_out))]
fn let_go(order: &mut BTreeSet<Ranked>, ranks: &mut HashMap<Key, Ranked>, page: Key, rank: Ranked)
    requires ranking { IsRanking order.old.keys (λ q. get is_page ranks.old q) }
    requires there { rank_in page order.old.keys ≡ Some rank }
    ensures ranking { IsRanking order.new.keys (λ q. get is_page ranks.new q) }
    ensures others { order.new.keys ≡ unranked page order.old.keys }
    ensures gone { rank_in page order.new.keys ≡ None }
{
    order.remove(&rank);
    forget(ranks, page);
}

/// A page that is not there goes to its place.
#[tactic(auto, using(crate::proofs::RankLaws::rank_came, crate::proofs::RankLaws::rank_stays, crate::proofs::RankLaws::rank_undone))]
fn place(
    order: &mut BTreeSet<Ranked>,
    ranks: &mut HashMap<Key, Ranked>,
    page: Key,
    rank: Ranked,
) -> Result<(), AllocError>
    requires ranking { IsRanking order.old.keys (λ q. get is_page ranks.old q) }
    requires of { page ≡ page_of rank }
    requires new { rank_in page order.old.keys ≡ None }
    ensures ranking { IsRanking order.new.keys (λ q. get is_page ranks.new q) }
    ensures order { OnOk result (order.new.keys ≡ placed rank order.old.keys) }
    ensures err { OnErr result (order.new.keys ≡ order.old.keys) }
{
    let Ok(()) = note(ranks, page, rank) else {
        return Err(AllocError);
    };
    let Ok(_) = order.insert(rank) else {
        forget(ranks, page);
        return Err(AllocError);
    };
    Ok(())
}

impl Ranking {
    /// With no page.
    pub(crate) fn new(alloc: Global) -> Ranking
        ensures { result ≡ [] }
    {
        Ranking {
            order: BTreeSet::new(alloc),
            ranks: no_ranks(alloc),
        }
    }

    /// How many pages there are.
    pub(crate) fn len(&self) -> usize
        ensures len { result ≡ length self.now }
        ensures fits { result < 2 ^ 63 }
    {
        self.order.len()
    }

    /// The page with its rank.
    pub(crate) fn rank_of(&self, page: Key) -> Option<Ranked>
        ensures { result ≡ rank_in page self.now }
    {
        self.ranks.get(&page).copied()
    }

    /// Room for one page: where each frame has one, the first leaves.
    #[tactic(auto, using(crate::proofs::RankLaws::room_out))]
    pub(crate) fn make_room(&mut self, frames: usize)
        ensures room { self.new ≡ room_made frames self.old }
        ensures gone { (page : Key) → rank_in page self.old ≡ None → rank_in page self.new ≡ None }
    {
        if frames <= self.order.len() {
            let_first_go(&mut self.order, &mut self.ranks);
        }
    }

    /// A page that is there is taken out, where it has this rank.
    fn take_out(&mut self, page: Key, rank: Ranked)
        requires { rank_in page self.old ≡ Some rank }
        ensures others { self.new ≡ unranked page self.old }
        ensures gone { rank_in page self.new ≡ None }
    {
        let_go(&mut self.order, &mut self.ranks, page, rank);
    }

    /// Takes the page out, and returns its rank if it was there.
    #[tactic(auto, using(crate::proofs::RankLaws::absent))]
    pub(crate) fn take(&mut self, page: Key) -> Option<Ranked>
        ensures rank { result ≡ rank_in page self.old }
        ensures gone { rank_in page self.new ≡ None }
        ensures same { IfNone result (self.new ≡ self.old) }
        ensures others { self.new ≡ unranked page self.old }
    {
        let rank = self.rank_of(page)?;
        self.take_out(page, rank);
        Some(rank)
    }

    /// A page that is not there goes to its place.
    pub(crate) fn put(&mut self, page: Key, rank: Ranked) -> Result<(), AllocError>
        requires of { page ≡ page_of rank }
        requires new { rank_in page self.old ≡ None }
        ensures order { OnOk result (self.new ≡ placed rank self.old) }
        ensures err { OnErr result (self.new ≡ self.old) }
    {
        place(&mut self.order, &mut self.ranks, page, rank)
    }
}

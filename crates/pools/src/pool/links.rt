// Going along the links of a pool, and adding to them.
ghost use Rattle.std.specs.Prelude.{◌≡◌, ◌<◌, ◌≤◌};
ghost use Rattle.pools.specs.Chains.{Led, Leads, chain_at, link_at, jump_from, jump_after};
ghost use Rattle.pools.specs.PoolMeaning.{pool_meaning};
ghost use Rattle.drawers.specs.Places.{version_of};
ghost use Rattle.shelf.specs.Putting.{added};

use crate::chain::{Chain, Link};
use crate::pool::PoolDrawer;
use drawers::Written;
use stamps::{CardNo, VersionNo};

impl PoolDrawer {
    // The link to a version above 0 of a card, up to the newest. Nothing is counted here: links are followed up to the one that is
    // asked for, and an iterator over them would be asked for its last.
    pub(crate) fn link(&self, card: CardNo, version: VersionNo) -> Link
        requires listed { card.0 < self.now.size.cards }
        requires above { 0 < version.0 }
        requires there { version.0 ≤ (link_at self.now.newest.items card.0).number }
        ensures led { Led self.now.chains.items self.now.used card.0 result }
        ensures told { result.number ≡ version.0 }
    {
        let mut at = self.newest[card.0 as usize];
        while at.number > version.0 {
            at = self.chains[at.place as usize].toward(version);
        }
        at
    }

    // The jump link beside the version that a link leads to; version 0 leads to itself.
    fn jump_from(&self, card: CardNo, link: Link) -> Link
        requires { Leads self.now.chains.items self.now.used card.0 link }
        ensures led { Leads self.now.chains.items self.now.used card.0 result }
        ensures told { result.number ≤ link.number }
        ensures chosen { result ≡ jump_from self.now.chains.items link }
    {
        if link.number == 0 {
            link
        } else {
            self.chains[link.place as usize].jump
        }
    }

    // The jump link for the version after the one that `older` leads to: past the two jumps before it, if they are as long.
    fn jump_after(&self, card: CardNo, older: Link) -> Link
        requires { Leads self.now.chains.items self.now.used card.0 older }
        ensures led { Leads self.now.chains.items self.now.used card.0 result }
        ensures told { result.number ≤ older.number }
        ensures chosen { result ≡ jump_after self.now.chains.items older }
    {
        let far = self.jump_from(card, older);
        let farther = self.jump_from(card, far);
        if older.number - far.number == far.number - farther.number {
            farther
        } else {
            older
        }
    }

    // Puts a card's next version into the next place.
    pub(crate) fn append(&mut self, card: CardNo, written: Written)
        requires listed { card.0 < self.old.size.cards }
        requires free { self.old.used < self.old.size.places }
        ensures linked { chain_at self.new.chains.items self.old.used ≡ record { card = card; older = link_at self.old.newest.items card.0; jump = jump_after self.old.chains.items (link_at self.old.newest.items card.0) } }
        ensures meant { pool_meaning self.new ≡ added (pool_meaning self.old) card.0 (version_of self.old.size.width written) }
    {
        let older = self.newest[card.0 as usize];
        let jump = self.jump_after(card, older);
        let place = self.used;
        self.places.write(place as usize, written);
        self.chains[place as usize] = Chain { card, older, jump };
        self.newest[card.0 as usize] = older.next(place);
        self.used = place + 1;
    }
}

//! Questions about the rasterizer, and instructions that only pop.
ghost use Rattle.fx_stackops.specs.Store.{DoesToStore};
ghost use Rattle.fx_stackops.specs.Rows.{mppem_row, mps_row, getinfo_row, ignored_row};

use crate::fault::StackFault;
use crate::store::Store;
use fx_fixed::Ppem;

impl Store {
    /// 4B MPPEM, Measure Pixels Per EM: `->` the size, in pixels per em.
    #[tactic(auto, unfolding(crate::specs::Rows::mppem_row))]
    pub fn mppem(&mut self, ppem: Ppem) -> Result<(), StackFault>
        ensures { DoesToStore (mppem_row ppem) self.old self.new result }
    {
        self.push(i32::from(ppem.pixels()))
    }

    /// 4C MPS, Measure Point Size: `->` the size, in pixels per em.
    #[tactic(auto, unfolding(crate::specs::Rows::mps_row))]
    pub fn mps(&mut self, ppem: Ppem) -> Result<(), StackFault>
        ensures { DoesToStore (mps_row ppem) self.old self.new result }
    {
        self.push(i32::from(ppem.pixels()))
    }

    /// 88 GETINFO, GET INFOrmation: `s ->` 35 if bit 0 asks for the rasterizer's version, else 0.
    #[tactic(auto, unfolding(crate::specs::Rows::getinfo_row))]
    pub fn getinfo(&mut self) -> Result<(), StackFault>
        ensures { DoesToStore getinfo_row self.old self.new result }
    {
        let a = self.last()?;
        self.set_last(if a.rem_euclid(2) == 1 { 35 } else { 0 });
        Ok(())
    }

    /// 4F DEBUG, 7E SANGW, 7F AA: `a ->`, and nothing else.
    #[tactic(auto, unfolding(crate::specs::Rows::pop_row))]
    pub fn ignored(&mut self) -> Result<(), StackFault>
        ensures { DoesToStore ignored_row self.old self.new result }
    {
        self.one()?;
        Ok(())
    }
}

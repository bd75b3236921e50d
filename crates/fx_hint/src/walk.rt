//! The walk over components.

ghost use Rattle.std.specs.Prelude.{[], ◌∷◌, ◌≡◌, unsigned_abs, ◌+◌, ◌<◌, ◌≤◌, false, None, Ok, Err, IfOk, OnOk, length};
ghost use Rattle.fx_fixed.specs.Chain.{GivesUnless};
ghost use Rattle.fx_zone.specs.Figures.{empty_figure};
ghost use Rattle.fx_sfnt.specs.Glyphs.{metrics_of, glyph_bytes_of};
ghost use Rattle.fx_glyf.specs.Glyphs.{glyph_of};
ghost use Rattle.fx_vary.specs.Shape.{own_bearings};
ghost use Rattle.fx_scale.specs.Phantoms.{phantoms_from};
ghost use Rattle.fx_hint.specs.Shapes.{shapes_of};
ghost use Rattle.fx_hint.specs.Faults.{Fails};
ghost use Rattle.fx_hint.specs.declared.fault.HintFault.{HintFault as TheFault};
ghost use Rattle.fx_hint.specs.Kept.{IsKeptFor};
ghost use Rattle.fx_hint.specs.Outlines.{scaled_simple, simple_made, run_on};
ghost use Rattle.fx_hint.specs.Runs.{HasRun, logged_assembled, logged_component};
ghost use Rattle.fx_outline.specs.Limits.{max_points};
ghost use Rattle.fx_hint.specs.Limits.{max_components, max_depth};
ghost use Rattle.fx_hint.specs.inner.RunSteps.{begun_runs, begun_component_runs, logged_left, Walks};
ghost use Rattle.fx_hint.specs.inner.Standing.{IsCounted, Stands, StandsUnless, StepsTo, steps_left};
ghost use Rattle.fx_hint.specs.inner.Steps.{Assembled, step_of, CountsPoints, begun, begun_component, counted_made, opened};

use crate::below::{Below, OpenComposite, Waiting};
use crate::component::{ComponentOf, Node};
use crate::count::Count;
use crate::fault::HintFault;
use crate::hinter::Hinter;
use crate::kept::GlyphInput;
use crate::kept_glyphs::KeptGlyphs;
use crate::made::Made;
use crate::placing::add_component;
use fx_glyf::{Component, Composite, Glyph, Simple, read};
use fx_machine::Usage;
use fx_scale::{PhantomPoints, Scale, fill_zone};
use fx_sfnt::{Font, Metrics};
use fx_vary::{Bearings, own_bearings};
use std::alloc::Global;
use std::mem;

/// Makes a glyph one without points yet. Its lists keep their memory.
fn make_empty(made: &mut Made, scale: &Scale, hinted: bool, bearings: Bearings)
    requires { unsigned_abs bearings.origin ≤ 65535 }
    ensures { made.new ≡ record {
      zone = empty_figure;
      phantoms = phantoms_from scale.now hinted bearings.origin bearings.advance;
      wish = None;
    } }
{
    made.zone.clear();
    made.phantoms = PhantomPoints::of_bearings(scale, hinted, bearings.origin, bearings.advance);
    made.wish = None;
}

/// The program of a glyph runs on its points and phantom points; what it uses up is counted, and returned.
#[inline(always)]
#[tactic(auto, unfolding(crate::specs::Outlines::run_on))]
fn run_on<H: Hinter>(
    hinter: &mut H,
    node: Node,
    code: &[u8],
    made: &mut Made,
    count: &mut Count,
) -> Result<Usage, HintFault>
    ensures known { H.known hinter.new ≡ H.known hinter.old }
    ensures kept { H.hinting hinter.new ≡ H.hinting hinter.old }
    ensures leads { HasRun H.Leads hinter.old hinter.new result
        (record { component = node.component; g = node.g; code = code.now; made = made.old } ∷ []) }
    ensures value { GivesUnless Fails (λ _. (made.new, count.new)) result
        (run_on (H.hinting hinter.old) node.g code.now (made.old, count.old)) }
    ensures ran { IfOk result (λ usage. (H.hinting hinter.old).run node.g code.now made.old ≡ Ok (made.new, usage)) }
    ensures records { OnOk result (count.new.records ≡ count.old.records) }
    ensures points { OnOk result ((length made.new.zone.points ≡ length made.old.zone.points)
        × (count.new.points ≡ count.old.points)) }
{
    hinter.law_keeps_shape();
    let usage = hinter.run(node.component, node.g, code, made)?;
    count.more_usage(usage);
    Ok(usage)
}

/// A walk over the components below a root. A step that begins a glyph writes it to a `Made` of its caller, and returns the
/// composite if it is one. So no large value is copied from step to step.
#[derive(Clone, Copy)]
pub struct Walk<'w, 'a> {
    pub alloc: Global,
    pub font: &'w Font<'a>,
    pub scale: &'w Scale,
    pub root: u16,
}

impl<'w, 'a> Walk<'w, 'a> {
    /// A simple glyph's scaled points, before its program runs.
    #[inline(always)]
    #[tactic(auto, unfolding(crate::specs::Outlines::simple_made))]
    fn simple_made(
        &self,
        hinted: bool,
        bearings: Bearings,
        simple: &Simple<'_>,
        count: &mut Count,
        made: &mut Made,
    ) -> Result<(), HintFault>
        requires { unsigned_abs bearings.origin ≤ 65535 }
        ensures value { GivesUnless Fails (λ _. (made.new, count.new)) result
            (simple_made self.now.scale.now hinted self.now.root bearings simple.now count.old) }
        ensures made { OnOk result (made.new ≡ scaled_simple self.now.scale.now hinted bearings simple.now) }
        ensures records { OnOk result (count.new.records ≡ count.old.records) }
        ensures points { OnOk result (CountsPoints count.old made.new count.new) }
    {
        fill_zone(
            self.alloc,
            &mut made.zone,
            simple,
            simple.points(),
            self.scale,
        )?;
        let points = made.zone.len();
        count.more_points(self.root, points)?;
        made.phantoms = PhantomPoints::of_bearings(
            self.scale,
            hinted,
            bearings.origin,
            bearings.advance,
        );
        made.wish = None;
        Ok(())
    }

    /// A simple component that was kept; its points, and what its program used up when it was made, are counted again.
    #[tactic(auto, unfolding(crate::specs::inner::Steps::counted_made))]
    fn recalled(&self, made: &Made, usage: Usage, count: &mut Count) -> Result<(), HintFault>
        ensures value { GivesUnless Fails (λ _. (Assembled made.now, count.new)) result
            (counted_made self.now.root made.now usage count.old) }
        ensures due { (e : TheFault) → result ≡ Err e → counted_made self.now.root made.now usage count.old ≡ Err e }
        ensures records { OnOk result (count.new.records ≡ count.old.records) }
        ensures points { OnOk result (CountsPoints count.old made.now count.new) }
    {
        count.more_points(self.root, made.zone.len())?;
        count.more_usage(usage);
        Ok(())
    }

    /// What a glyph is: its reading, its origin and its advance.
    #[tactic(auto, unfolding(crate::specs::Shapes::shapes_of))]
    fn shape(
        &self,
        g: u16,
        metrics: Metrics,
        bytes: &'a [u8],
    ) -> Result<(Glyph<'a>, Bearings), HintFault>
        requires metrics { Ok metrics ≡ metrics_of self.now.font.now g }
        requires bytes { Ok bytes.now ≡ glyph_bytes_of self.now.font.now g }
        ensures value { GivesUnless Fails (λ x. record { glyph = x.0; bearings = x.1 }) result
            (shapes_of self.now.font.now g) }
        ensures own { IfOk result (λ x. (Ok x.0 ≡ glyph_of bytes.now g) × (x.1 ≡ own_bearings metrics x.0)) }
        ensures origin { IfOk result (λ x. unsigned_abs x.1.origin ≤ 65535) }
    {
        let glyph = read(bytes, g)?;
        let bearings = own_bearings(metrics, &glyph);
        Ok((glyph, bearings))
    }

    /// A glyph begun: its number and bytes, its reading; and then it is assembled, or a composite that is open. A component that is
    /// simple may be recalled, or kept.
    #[inline(always)]
    #[tactic(auto, unfolding(crate::specs::inner::Steps::begun, crate::specs::inner::Steps::begun_by, crate::specs::inner::RunSteps::begun_runs, crate::specs::inner::RunSteps::begun_by_runs, crate::specs::Shapes::shapes_of))]
    fn begun<H: Hinter>(
        &self,
        hinter: &mut H,
        kept: &mut KeptGlyphs,
        node: Node,
        count: &mut Count,
        made: &mut Made,
    ) -> Result<Option<Composite<'a>>, HintFault>
        requires held { IsKeptFor H.Leads (H.hinting hinter.old) kept.old }
        requires points { count.old.points ≤ max_points }
        ensures known { H.known hinter.new ≡ H.known hinter.old }
        ensures kept { H.hinting hinter.new ≡ H.hinting hinter.old }
        ensures held { IsKeptFor H.Leads (H.hinting hinter.old) kept.new }
        ensures leads { HasRun H.Leads hinter.old hinter.new result
            (begun_runs (H.hinting hinter.old) (shapes_of self.now.font.now) self.now.scale.now self.now.root node.component node.g
            count.old) }
        ensures value { GivesUnless Fails (λ assembly. (step_of node assembly made.new, count.new)) result
            (begun (H.hinting hinter.old) (shapes_of self.now.font.now) self.now.scale.now self.now.root node.component node.g
            count.old) }
        ensures records { OnOk result (count.new.records ≡ count.old.records) }
        ensures points { OnOk result (CountsPoints count.old made.new count.new) }
    {
        let metrics = self.font.metrics(node.g)?;
        let bytes = self.font.glyph_bytes(node.g)?;
        let input = GlyphInput {
            g: node.g,
            scale: *self.scale,
            metrics,
            bytes,
        };
        if node.component.is_some() {
            if let Some(usage) = kept.recall(&input, made) {
                hinter.law_keeps_shape();
                self.recalled(made, usage, count)?;
                return Ok(None);
            }
        }
        let (glyph, bearings) = self.shape(node.g, metrics, bytes)?;
        match glyph {
            Glyph::Empty => {
                make_empty(made, self.scale, hinter.is_on(), bearings);
                Ok(None)
            }
            Glyph::Simple(simple) => {
                self.simple_made(hinter.is_on(), bearings, &simple, count, made)?;
                let usage = run_on(hinter, node, simple.code(), made, count)?;
                if node.component.is_some() {
                    kept.keep(&input, made, usage);
                }
                Ok(None)
            }
            Glyph::Composite(composite) => {
                make_empty(made, self.scale, hinter.is_on(), bearings);
                Ok(Some(composite))
            }
        }
    }

    /// A component begun, with `levels` levels allowed from here on.
    #[tactic(auto, unfolding(crate::specs::inner::Steps::begun_component, crate::specs::inner::RunSteps::begun_component_runs))]
    fn begun_component<H: Hinter>(
        &self,
        hinter: &mut H,
        kept: &mut KeptGlyphs,
        levels: u8,
        node: Node,
        count: &mut Count,
        made: &mut Made,
    ) -> Result<Option<Composite<'a>>, HintFault>
        requires held { IsKeptFor H.Leads (H.hinting hinter.old) kept.old }
        requires points { count.old.points ≤ max_points }
        ensures known { H.known hinter.new ≡ H.known hinter.old }
        ensures kept { H.hinting hinter.new ≡ H.hinting hinter.old }
        ensures held { IsKeptFor H.Leads (H.hinting hinter.old) kept.new }
        ensures leads { HasRun H.Leads hinter.old hinter.new result
            (begun_component_runs (H.hinting hinter.old) (shapes_of self.now.font.now) self.now.scale.now self.now.root levels
            node.component node.g count.old) }
        ensures value { GivesUnless Fails (λ assembly. (step_of node assembly made.new, count.new)) result
            (begun_component (H.hinting hinter.old) (shapes_of self.now.font.now) self.now.scale.now self.now.root levels
            node.component node.g count.old) }
        ensures records { OnOk result ((count.new.records ≡ count.old.records + 1) × (count.new.records ≤ max_components)) }
        ensures points { OnOk result (CountsPoints count.old made.new count.new) }
        ensures level { OnOk result (0 < levels) }
    {
        if levels == 0 {
            return Err(HintFault::ComponentDepth(node.g));
        }
        count.one_component(self.root)?;
        self.begun(hinter, kept, node, count, made)
    }

    /// The root assembled in `made`. Components are assembled in `spare`. What both held before is lost.
    #[inline(always)]
    pub fn assembled<H: Hinter>(
        &self,
        hinter: &mut H,
        kept: &mut KeptGlyphs,
        count: &mut Count,
        made: &mut Made,
        spare: &mut Made,
    ) -> Result<(), HintFault>
        requires held { IsKeptFor H.Leads (H.hinting hinter.old) kept.old }
        requires records { count.old.records ≤ max_components }
        requires points { count.old.points ≤ max_points }
        ensures known { H.known hinter.new ≡ H.known hinter.old }
        ensures kept { H.hinting hinter.new ≡ H.hinting hinter.old }
        ensures held { IsKeptFor H.Leads (H.hinting hinter.old) kept.new }
        ensures walks { Walks H.Leads hinter.old hinter.new made.new result count.new
            (logged_assembled (H.hinting hinter.old) (shapes_of self.now.font.now) self.now.scale.now self.now.root
            (logged_component (H.hinting hinter.old) (shapes_of self.now.font.now) self.now.scale.now self.now.root max_depth) None
            self.now.root (count.old, [])) }
    {
        let root = Node {
            component: None,
            g: self.root,
        };
        match self.begun(hinter, kept, root, count, made)? {
            None => Ok(()),
            Some(glyph) => self.closed(hinter, kept, glyph, count, made, spare),
        }
    }

    /// The next component of the innermost open composite begun. It goes into the composite, or it is open then, and the composite
    /// waits for it.
    fn next_component<H: Hinter>(
        &self,
        hinter: &mut H,
        kept: &mut KeptGlyphs,
        on: bool,
        component: Component,
        below: &mut Below<'a>,
        inner: &mut OpenComposite<'a>,
        count: &mut Count,
        spare: &mut Made,
    ) -> Result<(), HintFault>
        requires held { IsKeptFor H.Leads (H.hinting hinter.old) kept.old }
        requires on { on ≡ (H.hinting hinter.old).on }
        requires counted { IsCounted below.old inner.old.before inner.old.base count.old }
        ensures known { H.known hinter.new ≡ H.known hinter.old }
        ensures kept { H.hinting hinter.new ≡ H.hinting hinter.old }
        ensures held { IsKeptFor H.Leads (H.hinting hinter.old) kept.new }
        ensures counted { OnOk result (IsCounted below.new inner.new.before inner.new.base count.new) }
        ensures fewer { OnOk result (steps_left below.new count.new < steps_left below.old count.old) }
        ensures steps { StepsTo H.Leads (H.hinting hinter.old) (shapes_of self.now.font.now) self.now.scale.now self.now.root
            hinter.old hinter.new below.old (record inner.old { left = component ∷ inner.old.left }) count.old result
            (λ _ start due. Stands H.Leads (H.hinting hinter.old) (shapes_of self.now.font.now) self.now.scale.now self.now.root
            start hinter.new below.new inner.new count.new due) }
    {
        let levels = below.levels();
        inner.before += 1;
        let g = inner.node.g;
        let node = Node {
            component: Some(ComponentOf {
                composite: g,
                number: inner.before as u16,
            }),
            g: component.glyph,
        };
        match self.begun_component(hinter, kept, levels, node, count, spare)? {
            None => {
                add_component(&mut inner.base, self.scale, on, g, &component, spare)?;
                Ok(())
            }
            Some(glyph) => {
                let base = mem::replace(spare, Made::empty(self.alloc));
                let composite = mem::replace(inner, OpenComposite::new(node, glyph, base));
                below.push(Waiting {
                    component,
                    composite,
                })?;
                Ok(())
            }
        }
    }

    /// The program of the innermost open composite runs, after all its components. Then it goes into the composite that waits for
    /// it, which is open again. Says whether none waits: then it is the root.
    fn close<H: Hinter>(
        &self,
        hinter: &mut H,
        on: bool,
        below: &mut Below<'a>,
        inner: &mut OpenComposite<'a>,
        count: &mut Count,
    ) -> Result<bool, HintFault>
        requires on { on ≡ (H.hinting hinter.old).on }
        requires counted { IsCounted below.old inner.old.before inner.old.base count.old }
        requires none_left { inner.old.left ≡ [] }
        ensures known { H.known hinter.new ≡ H.known hinter.old }
        ensures kept { H.hinting hinter.new ≡ H.hinting hinter.old }
        ensures counted { IfOk result (λ ended. ended ≡ false → IsCounted below.new inner.new.before inner.new.base count.new) }
        ensures fewer { IfOk result (λ ended. ended ≡ false → steps_left below.new count.new < steps_left below.old count.old) }
        ensures steps { StepsTo H.Leads (H.hinting hinter.old) (shapes_of self.now.font.now) self.now.scale.now self.now.root
            hinter.old hinter.new below.old inner.old count.old result
            (λ ended start due. StandsUnless H.Leads (H.hinting hinter.old) (shapes_of self.now.font.now) self.now.scale.now
            self.now.root ended start hinter.new below.new inner.new count.new due) }
    {
        let code = inner.glyph.code();
        run_on(hinter, inner.node, code, &mut inner.base, count)?;
        let Some(waiting) = below.pop() else {
            return Ok(true);
        };
        let closed = mem::replace(inner, waiting.composite);
        let mut made = closed.base;
        let g = inner.node.g;
        add_component(
            &mut inner.base,
            self.scale,
            on,
            g,
            &waiting.component,
            &mut made,
        )?;
        Ok(false)
    }

    /// A root that is a composite assembled, step by step: the composites that wait for a component lie in a list, so that the walk
    /// is one loop. `made` has its phantom points. Components are assembled in `spare`.
    fn closed<H: Hinter>(
        &self,
        hinter: &mut H,
        kept: &mut KeptGlyphs,
        glyph: Composite<'a>,
        count: &mut Count,
        made: &mut Made,
        spare: &mut Made,
    ) -> Result<(), HintFault>
        requires held { IsKeptFor H.Leads (H.hinting hinter.old) kept.old }
        requires records { count.old.records ≤ max_components }
        requires points { count.old.points ≤ max_points }
        requires counted { length made.old.zone.points ≤ count.old.points }
        ensures known { H.known hinter.new ≡ H.known hinter.old }
        ensures kept { H.hinting hinter.new ≡ H.hinting hinter.old }
        ensures held { IsKeptFor H.Leads (H.hinting hinter.old) kept.new }
        ensures walks { Walks H.Leads hinter.old hinter.new made.new result count.new
            (logged_left (H.hinting hinter.old) (shapes_of self.now.font.now) self.now.scale.now self.now.root max_depth
            (opened (record { component = None; g = self.now.root }) glyph.entry made.old) (count.old, [])) }
    {
        let on = hinter.is_on();
        let mut below = Below::new(self.alloc);
        let base = mem::replace(made, Made::empty(self.alloc));
        let root = Node {
            component: None,
            g: self.root,
        };
        let mut open = OpenComposite::new(root, glyph, base);
        // What the root gives stays the same: what the innermost open composite gives with its components that are left, and then
        // each composite that waits, with what is assembled below it. The points of all these were counted, and so were the
        // components that they began.
        'steps: loop {
            match open.left.next() {
                Some(component) => self.next_component(
                    hinter, kept, on, component, &mut below, &mut open, count, spare,
                )?,
                None => {
                    if self.close(hinter, on, &mut below, &mut open, count)? {
                        *made = open.base;
                        return Ok(());
                    }
                }
            }
        }
    }
}

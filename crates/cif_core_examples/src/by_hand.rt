// The example `core-by-hand`, and what is answered after a failure.
ghost use Rattle.std.specs.Prelude.{◌≡◌, ◌<◌, IfOk};
ghost use Rattle.cif_pieces.specs.Plans.{IsPlanOf};

use cif_cells::{Listed, Name, Netlist, Raw};
use cif_core::{Claim, Core, Deposit, Look, Newest, Publish, Run};
use cif_level::levels;
use cif_parts::{plan, run_part};
use cif_pieces::{PartDone, Plan, Slots};
use cif_seq::{Case, Frame, first_frame, next_frame};
use cif_stimulus::Stimulus;
use std::alloc::{AllocError, Global};
use std::marker::Brand;
use std::process::Abort;
use std::sync::Arc;
use std::test::*;

/// A module without ports, cells and names.
fn bare_module(alloc: Global) -> Result<Raw, AllocError> {
    Ok(Raw {
        module: Name::of(Vec::from_slice(alloc, b"m")?),
        attributes: Listed::of(Vec::new(alloc)),
        ports: Listed::of(Vec::new(alloc)),
        cells: Listed::of(Vec::new(alloc)),
        names: Listed::of(Vec::new(alloc)),
    })
}

/// A case of five cycles without cells and net bits.
fn bare_case(rt: &impl Abort, alloc: Global) -> Result<Case, Fail>
    ensures { IfOk result (λ c. c.stimulus.cycles ≡ 5) }
{
    let module = bare_module(alloc)?;
    assert!(rt; module.is_in_order());
    let netlist = Netlist::build(alloc, module).expect(rt, "the module is refused");
    assert!(rt; netlist.cells().is_empty());
    assert!(rt; netlist.bits() == 0);
    let order = levels(alloc, &netlist).expect(rt, "a loop");
    let stimulus = Stimulus::new(alloc, 5)?;
    assert!(rt; stimulus.fits(&netlist));
    Ok(Case::new(alloc, netlist, order, stimulus)?)
}

/// The piece of part 0 at the cycle after the newest, or at cycle 0.
fn open_piece<N: Run>(rt: &impl Abort, alloc: Global, core: &Core<N>) -> Result<PartDone, Fail>
    ensures case { IfOk result (λ piece. piece.case ≡ N.case) }
    ensures parts { IfOk result (λ piece. piece.parts ≡ N.plan.parts) }
{
    match core.newest()? {
        Newest::Found(frame) => {
            let cycle = frame.cycle();
            assert!(rt; cycle < 4);
            assert!(rt; cycle + 1 < core.case().cycles());
            Ok(run_part(alloc, core.case(), core.plan(), 0, Some(&*frame))?)
        }
        Newest::NoneYet => Ok(run_part(alloc, core.case(), core.plan(), 0, None)?),
        Newest::Failed => panic!(rt; "a failure"),
    }
}

/// The frame of cycle 0, or of the cycle after the newest.
fn open_frame<N: Run>(rt: &impl Abort, alloc: Global, core: &Core<N>) -> Result<Frame, Fail>
    ensures { IfOk result (λ f. f.case ≡ N.case) }
{
    match core.newest()? {
        Newest::Found(frame) => {
            let cycle = frame.cycle();
            assert!(rt; cycle < 4);
            assert!(rt; cycle + 1 < core.case().cycles());
            Ok(next_frame(alloc, &*frame)?)
        }
        Newest::NoneYet => Ok(first_frame(alloc, core.case())?),
        Newest::Failed => panic!(rt; "a failure"),
    }
}

/// Claims the piece of a cycle.
fn expect_piece<N: Run>(rt: &impl Abort, core: &mut Core<N>, cycle: u64) -> Result<(), Fail> {
    match core.claim()? {
        Claim::Piece(piece) => {
            assert_eq!(rt; piece.cycle, cycle);
            assert_eq!(rt; piece.part, 0);
            assert_eq!(rt; piece.prior.is_some(), cycle > 0);
        }
        _ => panic!(rt; "no piece"),
    }
    Ok(())
}

/// Hands in the piece of the cycle after the newest, and says whether it was taken.
fn is_taken<N: Run>(rt: &impl Abort, alloc: Global, core: &mut Core<N>) -> Result<bool, Fail> {
    let piece = open_piece(rt, alloc, core)?;
    match core.deposit(piece) {
        Deposit::Taken => Ok(true),
        Deposit::Stranger(_) => Ok(false),
    }
}

/// Claims the assembly.
fn expect_assembly<N: Run>(rt: &impl Abort, core: &mut Core<N>) -> Result<(), Fail> {
    match core.claim()? {
        Claim::Assemble(slots) => assert_eq!(rt; slots.len(), 1),
        _ => panic!(rt; "no assembly"),
    }
    Ok(())
}

/// Hands in a frame, and says whether it was published.
fn is_published<N: Run>(alloc: Global, core: &mut Core<N>, frame: Frame) -> Result<bool, Fail>
    requires case { frame.case ≡ N.case }
    requires one { N.plan.parts ≡ 1 }
{
    let slots = Slots::empty(alloc, 1)?;
    match core.publish(Arc::new(alloc, frame)?, slots) {
        Publish::Published => Ok(true),
        Publish::Stranger(_, _) => Ok(false),
    }
}

/// There is nothing to claim now.
fn expect_wait<N: Run>(rt: &impl Abort, core: &mut Core<N>) -> Result<(), Fail> {
    match core.claim()? {
        Claim::Wait => Ok(()),
        _ => panic!(rt; "something to claim"),
    }
}

/// There is nothing to claim for good.
fn expect_finished<N: Run>(rt: &impl Abort, core: &mut Core<N>) -> Result<(), Fail> {
    match core.claim()? {
        Claim::Finished => Ok(()),
        _ => panic!(rt; "not finished"),
    }
}

/// What a look at a cycle finds.
fn look_at<N: Run>(core: &Core<N>, cycle: u64) -> Result<Look, Fail>
    requires { N.sessions ≡ 1 }
{
    Ok(core.look(0, cycle)?)
}

/// Wants a cycle, where the session wanted cycle 0.
fn want_more<N: Run>(rt: &impl Abort, core: &mut Core<N>, cycle: u64)
    requires sessions { N.sessions ≡ 1 }
    requires within { cycle < N.case.stimulus.cycles }
{
    match core.kept_want(0) {
        Some(want) => {
            assert_eq!(rt; want, 0);
            core.want(0, cycle);
        }
        None => panic!(rt; "it has left"),
    }
}

/// Computes the one part of a cycle, and hands it in twice: the second piece is a stranger.
fn compute<N: Run>(
    rt: &impl Abort,
    alloc: Global,
    core: &mut Core<N>,
    cycle: u64,
) -> Result<(), Fail>
    requires few { cycle < 5 }
    requires one { N.plan.parts ≡ 1 }
{
    expect_piece(rt, core, cycle)?;
    assert!(rt; core.claimed(0));
    assert!(rt; is_taken(rt, alloc, core)?);
    assert!(rt; !is_taken(rt, alloc, core)?);
    assert_eq!(rt; core.taken(), cycle + 1);
    Ok(())
}

/// Completes a cycle.
fn complete<N: Run>(
    rt: &impl Abort,
    alloc: Global,
    core: &mut Core<N>,
    cycle: u64,
) -> Result<(), Fail>
    requires few { cycle < 5 }
    requires one { N.plan.parts ≡ 1 }
{
    compute(rt, alloc, core, cycle)?;
    expect_assembly(rt, core)?;
    assert!(rt; core.assembling());
    expect_wait(rt, core)?;
    let frame = open_frame(rt, alloc, core)?;
    assert!(rt; is_published(alloc, core, frame)?);
    assert_eq!(rt; core.done(), cycle + 1);
    Ok(())
}

/// What is answered after a failure, where three cycles are claimed or done and the session wants cycle 1.
fn expect_failure<N: Run>(rt: &impl Abort, alloc: Global, core: &mut Core<N>) -> Result<(), Fail>
    requires sessions { N.sessions ≡ 1 }
    requires cycles { N.case.stimulus.cycles ≡ 5 }
{
    assert!(rt; !core.failed());
    core.fail();
    assert!(rt; core.failed());
    expect_finished(rt, core)?;
    assert!(rt; !is_taken(rt, alloc, core)?);
    assert!(rt; matches!(look_at(core, 1)?, Look::Found(_)));
    assert!(rt; matches!(look_at(core, 4)?, Look::Failed));
    Ok(())
}

/// A run by hand.
fn by_hand<N: Run>(rt: &impl Abort, alloc: Global, case: Case, plan: Plan) -> Result<(), Fail>
    requires case { case ≡ N.case }
    requires plan { plan ≡ N.plan }
    requires planned { IsPlanOf N.case N.plan }
    requires one { N.plan.parts ≡ 1 }
    requires cycles { N.case.stimulus.cycles ≡ 5 }
    requires window { N.window ≡ 2 }
    requires sessions { N.sessions ≡ 1 }
{
    let case = Arc::new(alloc, case)?;
    let plan = Arc::new(alloc, plan)?;
    let mut core = Core::<N>::new(alloc, case, plan, 2, 1)?;
    complete(rt, alloc, &mut core, 0)?;
    complete(rt, alloc, &mut core, 1)?;
    expect_wait(rt, &mut core)?;
    assert!(rt; matches!(look_at(&core, 2)?, Look::NotYet(2)));
    want_more(rt, &mut core, 1);
    assert!(rt; matches!(look_at(&core, 0)?, Look::Gone(1)));
    expect_piece(rt, &mut core, 2)?;
    expect_failure(rt, alloc, &mut core)?;
    core.leave(0);
    assert!(rt; core.kept_want(0).is_none());
    Ok(())
}

/// The example `core-by-hand`, and a failure after it.
#[test]
fn core_by_hand(rt: HostRuntime) -> Result<(), Fail> {
    let alloc = rt.alloc();
    let case = bare_case(&rt, alloc)?;
    let plan = plan(alloc, &case, 1)?;
    by_hand::<Brand>(&rt, alloc, case, plan)
}

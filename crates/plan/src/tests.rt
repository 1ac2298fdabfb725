// The worked examples, run.
use crate::plan::Plan;
use crate::radix::RadixPlan;
use crate::runs::Run;
use crate::sending::sends;
use crate::swap::SwapPlan;
use crate::transfer::Transfer;
use crate::transfers::list_transfers;
use std::test::Fail;

// An entry that nothing was written to.
const UNUSED: Transfer = Transfer {
    round: 0,
    sender: 0,
    receiver: 0,
    piece: Run { start: 0, len: 0 },
};

#[test]
fn radix_plan_of_twos(rt: HostRuntime) -> Result<(), Fail> {
    let plan = RadixPlan::new(4, 10, &[2, 2])?;
    assert_eq!(rt; plan.span(2, 3)?, Run { start: 7, len: 3 });
    assert_eq!(rt; sends(&plan, 0)?, 8);
    assert_eq!(rt; sends(&plan, 2)?, 7);
    let mut area = [UNUSED; 9];
    assert!(rt; list_transfers(&plan, &mut area[..7]).is_err());
    assert_eq!(rt; list_transfers(&plan, &mut area)?, 8);
    assert_eq!(rt; area[7].round, 2);
    assert_eq!(rt; area[8], UNUSED);
    Ok(())
}

#[test]
fn swap_plan_with_ranks_left_over(rt: HostRuntime) -> Result<(), Fail> {
    let plan = SwapPlan::new(5, 10)?;
    assert_eq!(rt; plan.group(1, 4)?, Run { start: 2, len: 3 });
    assert_eq!(rt; sends(&plan, 2)?, 10);
    assert_eq!(rt; sends(&plan, 4)?, 8);
    assert_eq!(rt; plan.span(9, 4)?.start, 8);
    Ok(())
}

#[test]
fn makers_refuse(rt: HostRuntime) {
    assert!(rt; RadixPlan::new(1, 10, &[]).is_ok());
    assert!(rt; RadixPlan::new(6, 10, &[2, 2]).is_err());
    assert!(rt; SwapPlan::new(32, 1024).is_ok());
    assert!(rt; SwapPlan::new(33, 1024).is_err());
    assert!(rt; SwapPlan::new(1, 1025).is_err());
}

//! What holds of upgraded messages. There is no code here.
ghost use Rattle.message_upgrade.specs.Laws.{SamePlacesAreNamed, UpgradedIsAsLong, UpgradedIsJudgedByView, UpgradedIsForgedAlike};
ghost use Rattle.message_upgrade.specs.Laws.{UpgradedIsJudgedAlike};

/// In version 2 a message is as long as in version 1.
pub fn upgraded_is_as_long()
    ensures { UpgradedIsAsLong }
{}

/// It names the same places (`places`). So the verdict over a view is the same, with its details (`by_view`), one is forged exactly
/// where the other is (`forged`), and a machine says the same of both and is left in the same state (`machines`): whatever stands
/// beside the block, which need be no message, and whatever the verdict is.
pub fn upgraded_is_judged_alike()
    ensures places { SamePlacesAreNamed }
    ensures by_view { UpgradedIsJudgedByView }
    ensures forged { UpgradedIsForgedAlike }
    ensures machines { UpgradedIsJudgedAlike }
{}

//! The settings of the sessions that a plan asks for.
ghost use Rattle.std.specs.Prelude.{◌≡◌};
ghost use Rattle.chem_shell.specs.Words.{settings_of};

use crate::request::Plan;
use session_run::Settings;

/// The most bytes that are taken of an input.
pub const INPUT_LIMIT: u64 = 4_294_967_296;

/// The settings of each session.
pub(crate) fn settings(plan: &Plan<'_>) -> Settings
    ensures { result ≡ settings_of plan.now }
{
    Settings {
        workers: plan.workers,
        page: plan.page,
        input_limit: INPUT_LIMIT,
    }
}

//! Laws of the definitions, each the contract of a function that does nothing.
ghost use Rattle.pj_session.specs.Laws.{FirstRefusalIsTold, OneListOfReports};

use pj_check::{one_refusal, one_run, runs_are_not_refused};

/// The first world of a session that is refused, if there is one, is what the session answers, with the cause of its refusal, unless memory is wanting.
pub fn first_refusals_are_told()
    ensures { FirstRefusalIsTold }
{
    runs_are_not_refused();
    one_refusal();
}

/// Words and worlds have one list of cold reports at most, so what a session answers does not hang on the cache that it found.
pub fn one_list_of_reports()
    ensures { OneListOfReports }
{
    one_run();
}

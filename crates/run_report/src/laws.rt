//! Laws over the definitions that contracts cite, each on the contract of a function that does
//! nothing.
ghost use Rattle.run_report.specs.Forecasts.{ForecastsAgree, ForecastsAreClosed, ForecastsAreOne};
ghost use Rattle.run_report.specs.Truths.{ReportsComeTrue, SparedComeTrue, StatesComeTrue, WholeComesTrue};

/// Where the inputs and the earlier twins of each derivation have smaller numbers, each has the
/// foretold state that the table gives from the foretold states of all, and no other states do.
pub fn forecasts_solve_the_table()
    ensures agree { ForecastsAgree }
    ensures one { ForecastsAreOne }
{}

/// It is foretold of each derivation of a plan that it is built, reused or refused.
pub fn forecasts_are_closed()
    ensures { ForecastsAreClosed }
{}

/// A run over a loaded plan of which no builder fails ends as was foretold, whatever the number of
/// workers and the order of their turns: each wanted derivation in its foretold state, with a
/// report that tells what the forecast told, line by line.
pub fn forecast_comes_true()
    ensures states { StatesComeTrue }
    ensures reports { ReportsComeTrue }
    ensures whole { WholeComesTrue }
{}

/// Where builders fail, each wanted derivation still ends in its foretold state if no failure
/// reaches it: it didn't fail itself, and nothing that it waits for, directly or through others,
/// failed.
pub fn what_no_failure_reaches_comes_true()
    ensures { SparedComeTrue }
{}

//! The theorems on casebooks, each as the contract of a function.
ghost use Rattle.judging.specs.Answers.{AnswersMean};
ghost use Rattle.judging.specs.Example.{Edges};
ghost use Rattle.judging.specs.Theorem.{VerdictMeans, NeverFull};

/// What a verdict means, after any calls.
pub fn verdict_means()
    ensures { VerdictMeans }
{}

/// No split is ever refused for want of room.
pub fn never_full()
    ensures { NeverFull }
{}

/// What the answers of price, sample, strike, trim and close mean, in terms of plans.
pub fn answers_mean()
    ensures { AnswersMean }
{}

/// What the calls do on a small chart.
pub fn edges_stand()
    ensures { Edges }
{}

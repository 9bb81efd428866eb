//! Texts of traces.

/// Two devices, of which one is frozen for three rounds.
pub(crate) const FROZEN: &str =
    "camtrace1,a,b,c,d,e,f,g\nsim,1,,,,,,\ndev,0,1,0,1,,,\ndev,0,2,0,1,,,\nlane,0,,,,,,\nsubmit,0,0,896,4,none,,\nsubmit,0,1,1152,4,none,,\nsend,0,0,,,,,\ndone,0,01,00,,,,\ntick,,,,,,,\nfreeze,1,1,,,,,\ntick,,,,,,,\ntick,,,,,,,\ntick,,,,,,,\nrelease,1,1,,,,,\nsend,0,1,,,,,\ndone,1,01,00,,,,\n";

/// Two adapters: on one the trace above, on the other an urgent command that comes after one that isn't, in common rounds.
pub(crate) const TWO_ADAPTERS: &str =
    "camtrace1,a,b,c,d,e,f,g\nsim,1,,,,,,\nsim,1,,,,,,\ndev,0,1,0,1,,,\ndev,0,2,0,1,,,\ndev,1,1,0,1,,,\nlane,0,,,,,,\nlane,1,,,,,,\nsubmit,0,0,896,4,none,,\nsubmit,0,1,1152,4,none,,\nsubmit,0,2,1152,4,none,,\nsend,0,0,,,,,\ndone,0,01,00,,,,\nsend,1,2,,,,,\ndone,2,01,00,,,,\nsubmit,0,2,128,4,none,,\ntick,,,,,,,\nfreeze,1,1,,,,,\nsend,1,3,,,,,\ndone,3,01,00,,,,\ntick,,,,,,,\ntick,,,,,,,\ntick,,,,,,,\nrelease,1,1,,,,,\nsend,0,1,,,,,\ndone,1,01,00,,,,\n";

/// Two adapters, of which the second alone has commands: those of the first trace.
pub(crate) const SECOND_ADAPTER: &str =
    "camtrace1,a,b,c,d,e,f,g\nsim,1,,,,,,\nsim,1,,,,,,\ndev,0,1,0,1,,,\ndev,1,1,0,1,,,\ndev,1,2,0,1,,,\nlane,0,,,,,,\nlane,1,,,,,,\nsubmit,0,1,896,4,none,,\nsubmit,0,2,1152,4,none,,\nsend,1,0,,,,,\ndone,0,01,00,,,,\ntick,,,,,,,\nfreeze,2,1,,,,,\ntick,,,,,,,\ntick,,,,,,,\ntick,,,,,,,\nrelease,2,1,,,,,\nsend,1,1,,,,,\ndone,1,01,00,,,,\n";

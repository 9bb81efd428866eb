//! Texts of traces and of a report.

/// Two devices, of which one is frozen for three rounds.
pub(crate) const FROZEN: &str =
    "camtrace1,a,b,c,d,e,f,g\nsim,1,,,,,,\ndev,0,1,0,1,,,\ndev,0,2,0,1,,,\nlane,0,,,,,,\nsubmit,0,0,896,4,none,,\nsubmit,0,1,1152,4,none,,\nsend,0,0,,,,,\ndone,0,01,00,,,,\ntick,,,,,,,\nfreeze,1,1,,,,,\ntick,,,,,,,\ntick,,,,,,,\ntick,,,,,,,\nrelease,1,1,,,,,\nsend,0,1,,,,,\ndone,1,01,00,,,,\n";

/// Two adapters on a link with one opening: a command goes to the one, and an urgent one for the other comes after it.
pub(crate) const NARROW_LINK: &str =
    "camtrace3,a,b,c,d,e,f,g\nweight,255,16,,,,,\nweight,511,8,,,,,\nweight,767,4,,,,,\nweight,1023,2,,,,,\nweight,1279,1,,,,,\nlink,1,,,,,,\nsim,1,0,,,,,\nsim,1,0,,,,,\ndev,0,1,0,1,,,\ndev,1,1,0,1,,,\nlane,0,,,,,,\nlane,1,,,,,,\nsubmit,0,0,1152,4,none,,\nsend,0,0,,,,,\ndone,0,01,00,,,,\nsubmit,1,1,128,4,none,,\ntick,,,,,,,\nsend,1,1,,,,,\ndone,1,01,00,,,,\n";

/// A report on the trace with two devices.
pub(crate) const REPORT: &str =
    "camaudit 1\ncommands 2\nstays 2\nrounds 5\nlive 4\nbest 2\nexcess 2\nstay 0 0 1 1 2 2\nstay 1 0 1 5 1 1\nprice sim 0 1 3\nend\n";

//! The progress of plans.

use crate::texts::FROZEN;
use audit_report::run_audit_with;
use cam_types::Watched;
use cost_plan::{Done, PlanProgress, plan_with};
use recording_file::read_recording;
use round_net::{Net, cost};
use std::alloc::Global;
use std::sync::atomic::{AtomicBool, AtomicU32, Ordering};
use std::test::Fail;

// How often a part began, of which adapters, a bit each, how many rounds were mended at last, and how often a level was planned; how
// far the plan by levels was the last time, how many parts it has, and whether it was no further than the time before.
#[derive(Drop)]
struct Reports {
    begun: AtomicU32,
    adapters: AtomicU32,
    mended: AtomicU32,
    levels: AtomicU32,
    planned: AtomicU32,
    parts: AtomicU32,
    far: AtomicU32,
    is_back: AtomicBool,
}

impl Reports {
    fn nothing() -> Reports {
        Reports {
            begun: AtomicU32::new(0),
            adapters: AtomicU32::new(0),
            mended: AtomicU32::new(0),
            levels: AtomicU32::new(0),
            planned: AtomicU32::new(0),
            parts: AtomicU32::new(0),
            far: AtomicU32::new(0),
            is_back: AtomicBool::new(false),
        }
    }

    fn parts(&self) -> u32 {
        self.begun.load(Ordering::SeqCst)
    }

    // Whether several levels of so many parts were reported, each once, and at last all.
    fn has_levels(&self, parts: u32) -> bool {
        let of = self.parts.load(Ordering::SeqCst);
        let is_whole = of == parts && self.planned.load(Ordering::SeqCst) == parts;
        is_whole && self.levels.load(Ordering::SeqCst) > 4 && !self.is_back.load(Ordering::SeqCst)
    }

    // Whether no level was reported, and that so many rounds were mended.
    fn has_no_level(&self, mended: u32) -> bool {
        self.levels.load(Ordering::SeqCst) == 0 && self.mended.load(Ordering::SeqCst) == mended
    }
}

impl PlanProgress for Reports {
    fn begun(&self, adapter: u32) {
        self.begun.fetch_add(1, Ordering::SeqCst);
        self.adapters
            .fetch_or(1 << (adapter % 32), Ordering::SeqCst);
    }

    fn mended(&self, mended: u32, _rounds: u32) {
        self.mended.store(mended, Ordering::SeqCst);
    }

    fn planned(&self, done: Done) {
        self.levels.fetch_add(1, Ordering::SeqCst);
        self.planned.store(done.planned, Ordering::SeqCst);
        self.parts.store(done.parts, Ordering::SeqCst);
        let left = 32u32.saturating_sub(done.levels_left);
        let far = done.planned.saturating_mul(32).saturating_add(left);
        if self.far.swap(far, Ordering::SeqCst) >= far {
            self.is_back.store(true, Ordering::SeqCst);
        }
    }
}

// What a recording has to send, and how.
#[derive(Clone, Copy, Debug)]
struct Load {
    requests: u32,
    // How many are sent in each round.
    pace: u32,
    rounds: u32,
    is_linked: bool,
}

// Requests that are sent in 128 rounds.
const FAST: Load = Load {
    requests: 4097,
    pace: 64,
    rounds: 128,
    is_linked: true,
};

// More in so many rounds that some wait for what is full through more than 2,048 of them.
const SLOW: Load = Load {
    requests: 4500,
    pace: 2,
    rounds: 2304,
    is_linked: true,
};

// The text of a recording of requests on eight devices of two adapters on a link, which come in half of the time in which they are
// sent, and stand from the last one to the first: as many as the pace says go over the link in each round, in the order in which they
// come, though each fourth is urgent. In round 1 the link takes none. Or there is no link, and the adapters take more together.
fn text(alloc: Global, load: Load) -> Result<String, Fail> {
    let Load {
        requests,
        pace,
        rounds,
        is_linked,
    } = load;
    let mut text = String::new(alloc);
    text.push_str(format!(in alloc;
        "camrecord1,a,b,c,d,e,f,g\nrounds,{rounds},,,,,,\n"
    )?.as_str())?;
    let parts = if is_linked {
        format!(in alloc; "link,{pace},,,,,,\nsim,{pace},0,,,,,\nsim,{pace},0,,,,,\n")?
    } else {
        let own = pace.saturating_mul(3) / 4;
        format!(in alloc; "sim,{own},,,,,,\nsim,{own},,,,,,\n")?
    };
    text.push_str(parts.as_str())?;
    for device in 0..8u32 {
        let adapter = device % 2;
        text.push_str(format!(in alloc; "dev,{adapter},{device},0,16,,,\n")?.as_str())?;
    }
    if is_linked {
        text.push_str("cap,link,0,1,1,0,,\n")?;
    }
    for number in (0..requests).rev() {
        let (device, priority) = (number % 8, if number % 4 == 0 { 128 } else { 1152 });
        let sent = number.checked_div(pace).unwrap_or(0);
        let (arrival, sent) = (sent / 2 + 1, sent.saturating_add(2));
        let row = format!(in alloc; "request,0,{device},{priority},{arrival},,{sent},\n")?;
        text.push_str(row.as_str())?;
    }
    Ok(text)
}

// The net of a recording's text.
pub(crate) fn net_of(alloc: Global, text: &str) -> Result<Net, Fail> {
    let recording = read_recording(alloc, &mut Watched::new(text.as_bytes()))?;
    Ok(Net::of_recording(alloc, &recording)?)
}

// The net of that recording.
fn net(alloc: Global, load: Load) -> Result<Net, Fail> {
    net_of(alloc, text(alloc, load)?.as_str())
}

// The net of a recording of that many requests over a link.
pub(crate) fn linked_net(alloc: Global, requests: u32) -> Result<Net, Fail> {
    net(alloc, Load { requests, ..FAST })
}

#[test]
fn only_more_than_4096_stays_are_planned_by_repair(rt: HostRuntime) -> Result<(), Fail> {
    for (requests, is_linked, begun, mended) in [
        (4096, true, 1, 0),
        (4097, true, 0, 128),
        (4096, false, 2, 0),
        (4097, false, 0, 128),
    ] {
        let net = net(
            rt.alloc(),
            Load {
                requests,
                is_linked,
                ..FAST
            },
        )?;
        let progress = Reports::nothing();
        let best = plan_with(&rt, rt.alloc(), &net, &progress)?;
        assert!(rt; progress.has_no_level(mended) && progress.parts() == begun);
        assert!(rt; net.stays() == requests);
        assert!(rt; cost(&net, &best.schedule) < Some(net.stays() as u64 * 64));
    }
    Ok(())
}

#[test]
fn requests_that_wait_through_many_rounds_are_planned_by_levels(
    rt: HostRuntime,
) -> Result<(), Fail> {
    for (is_linked, parts) in [(true, 1), (false, 2)] {
        let net = net(rt.alloc(), Load { is_linked, ..SLOW })?;
        let progress = Reports::nothing();
        plan_with(&rt, rt.alloc(), &net, &progress)?;
        assert!(rt; progress.has_levels(parts) && progress.parts() == 0);
        assert!(rt; progress.mended.load(Ordering::SeqCst) == 0);
    }
    Ok(())
}

// How many times three rounds there are, in each of which three requests come.
const TIMES: u32 = 1400;

// A recording of one device that takes one request in each round. In each three rounds three come at once: one of weight 1 that ends in
// the first of them, one of weight 2, and one of weight 1.
fn short_windows(alloc: Global) -> Result<String, Fail> {
    let mut text = String::new(alloc);
    let rounds = TIMES.saturating_mul(3);
    let head = format!(in alloc;
        "camrecord1,a,b,c,d,e,f,g\nrounds,{rounds},,,,,,\nsim,1,,,,,,\ndev,0,0,0,1,,,\n"
    )?;
    text.push_str(head.as_str())?;
    for time in 0..TIMES {
        let first = time.saturating_mul(3).saturating_add(1);
        let (second, third) = (first.saturating_add(1), first.saturating_add(2));
        let ending = format!(in alloc; "request,0,0,1152,{first},{first},{first},\n")?;
        let light = format!(in alloc; "request,0,0,1152,{first},,{second},\n")?;
        let heavy = format!(in alloc; "request,0,0,896,{first},,{third},\n")?;
        text.push_str(ending.as_str())?;
        text.push_str(light.as_str())?;
        text.push_str(heavy.as_str())?;
    }
    Ok(text)
}

#[test]
fn a_window_that_ends_early_is_kept_by_repair(rt: HostRuntime) -> Result<(), Fail> {
    let net = net_of(rt.alloc(), short_windows(rt.alloc())?.as_str())?;
    let progress = Reports::nothing();
    let best = plan_with(&rt, rt.alloc(), &net, &progress)?;
    assert!(rt; progress.has_no_level(TIMES.saturating_mul(3)) && progress.parts() == 0);
    // The one that ends goes first, then the heavy one, which waits one round, and then the light one, which waits two.
    let due = u64::from(TIMES).saturating_mul(2 + 2);
    assert_eq!(rt; cost(&net, &best.schedule), Some(due));
    Ok(())
}

// Three adapters, on each of which the order by weight isn't best: the lighter of two requests has to go first, since its device is
// stopped in the rounds after that.
const THREE: &str =
    "camrecord1,a,b,c,d,e,f,g\nrounds,5,,,,,,\nsim,1,,,,,,\nsim,1,,,,,,\nsim,1,,,,,,\ndev,0,0,0,1,,,\ndev,0,1,0,1,,,\ndev,1,0,0,1,,,\ndev,1,1,0,1,,,\ndev,2,0,0,1,,,\ndev,2,1,0,1,,,\ncap,dev,1,2,4,0,,\ncap,dev,3,2,4,0,,\ncap,dev,5,2,4,0,,\nrequest,0,0,896,1,,1,\nrequest,0,1,1152,1,,5,\nrequest,0,2,896,1,,1,\nrequest,0,3,1152,1,,5,\nrequest,0,4,896,1,,1,\nrequest,0,5,1152,1,,5,\n";

#[test]
fn progress_names_each_of_three_adapters(rt: HostRuntime) -> Result<(), Fail> {
    let net = net_of(rt.alloc(), THREE)?;
    let progress = Reports::nothing();
    plan_with(&rt, rt.alloc(), &net, &progress)?;
    assert!(rt; progress.parts() == 3 && progress.adapters.load(Ordering::SeqCst) == 0b111);
    Ok(())
}

#[test]
fn progress_of_an_audit_names_its_parts(rt: HostRuntime) -> Result<(), Fail> {
    let alloc = rt.alloc();
    let many = text(alloc, FAST)?;
    let slow = text(alloc, SLOW)?;
    for (given, begun, mended, levels) in [
        (FROZEN, 1, 0, 0),
        (many.as_str(), 0, FAST.rounds, 0),
        (slow.as_str(), 0, 0, 1),
    ] {
        let mut report = Vec::new(alloc);
        let progress = Reports::nothing();
        let mut reader = Watched::new(given.as_bytes());
        run_audit_with(
            &rt,
            alloc,
            &mut reader,
            &mut Watched::new(&mut report),
            true,
            &progress,
        )?;
        let is_reported = if levels == 0 {
            progress.has_no_level(mended)
        } else {
            progress.has_levels(levels)
        };
        assert!(rt; is_reported && progress.parts() == begun);
    }
    Ok(())
}

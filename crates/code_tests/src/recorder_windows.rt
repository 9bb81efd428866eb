//! The windows of a recorder.

use recorder::{MAX_DEVICES, MAX_DRIVERS, NoteFault, Recorder, SLACK};
use recording_file::{Span, TimeUnit};
use std::test::Fail;
use window_recordings::Ending;

// Ten nanoseconds.
const ROUND: Span = Span {
    count: 10,
    unit: TimeUnit::Nanosecond,
};

// From when to when a window goes, how many requests were started in it, and what these waited before it.
fn window_of(recorder: &Recorder) -> Option<(u64, u64, usize, u64)> {
    let window = recorder.window()?;
    Some((window.from, window.until, window.requests, window.carried))
}

// The round in which the first request of the window was sent.
fn first_sent(recorder: &Recorder) -> Option<u32> {
    let recording = recorder.window()?.recording.as_ref()?;
    Some(recording.requests().first()?.sent)
}

#[test]
fn what_was_noted_is_recorded_window_by_window(rt: HostRuntime) -> Result<(), Fail> {
    let mut recorder = Recorder::new(rt.alloc(), Some(ROUND), 20, 8)?;
    assert_eq!(rt; recorder.add_device(b"sda", Some(4)), Ok(true));
    assert_eq!(rt; recorder.add_driver(b"db"), Ok(true));
    assert!(rt; recorder.note_arrival(7, 0, 0, 512, 10).is_ok());
    assert!(rt; recorder.note_arrival(8, 0, 0, 512, 12).is_ok());
    assert!(rt; recorder.note_start(7, 25).is_ok());
    assert!(rt; recorder.note_start(8, 38).is_ok());
    assert!(rt; recorder.note_done(7, 41).is_ok());
    assert!(rt; !recorder.is_due());
    assert!(rt; recorder.note_arrival(9, 0, 0, 512, SLACK + 60).is_ok());
    assert!(rt; recorder.cancel(9).is_ok());
    assert!(rt; recorder.is_due());

    assert!(rt; recorder.make_window(Ending::Whole).is_ok());
    assert_eq!(rt; window_of(&recorder), Some((10, 30, 1, 0)));
    assert_eq!(rt; first_sent(&recorder), Some(2));
    recorder.drop_window();

    // It waited for two rounds, each of which counts 4.
    assert!(rt; recorder.make_window(Ending::Whole).is_ok());
    assert_eq!(rt; window_of(&recorder), Some((30, 50, 1, 8)));
    assert_eq!(rt; first_sent(&recorder), Some(1));
    recorder.drop_window();

    assert!(rt; recorder.make_window(Ending::LastStart).is_ok());
    assert_eq!(rt; window_of(&recorder), None);
    Ok(())
}

#[test]
fn only_what_was_added_is_noted(rt: HostRuntime) -> Result<(), Fail> {
    let mut recorder = Recorder::new(rt.alloc(), None, 20, 8)?;
    for _ in 0..MAX_DEVICES {
        assert_eq!(rt; recorder.add_device(b"a disk", None), Ok(true));
    }
    assert_eq!(rt; recorder.add_device(b"a disk", None), Ok(false));
    for _ in 0..MAX_DRIVERS {
        assert_eq!(rt; recorder.add_driver(b"db"), Ok(true));
    }
    assert_eq!(rt; recorder.add_driver(b"db"), Ok(false));
    let beyond = recorder.note_arrival(1, MAX_DEVICES, 0, 0, 5);
    assert!(rt; matches!(beyond, Err(NoteFault::NoDevice)));
    assert!(rt; recorder.note_arrival(1, 31, 255, 0, 5).is_ok());
    Ok(())
}

// Worked scripts over several substreams, in both directions, over the file `in.wav`: each transcript whole, and why it
// ended.
use crate::tests::{NO_FILE, told};
use std::test::Fail;

// What writers are answered.
#[test]
fn writers_wait_and_are_refused(rt: HostRuntime) -> Result<(), Fail> {
    for (file, script, transcript, fault) in [
        // Pointers wrap at the boundary 16.
        (
            NO_FILE,
            "long 31\ncard s0 basic p\nopen c0 s0\nhw c0 s0 RW_INTERLEAVED U8 1 8000 2 2\nprepare c0 s0\nwritei c0 s0 n 01020304\nmove s0 3\nirq s0\nwritei c0 s0 n 050607\nmove s0 3\nirq s0\nwritei c0 s0 n 050607\nmove s0 3\nirq s0\nwritei c0 s0 n 050607\nmove s0 3\nirq s0\nwritei c0 s0 n 050607\nmove s0 3\nirq s0\nwritei c0 s0 n 050607\nmove s0 3\nirq s0\nwritei c0 s0 n 050607\nmove s0 3\nirq s0\nwritei c0 s0 n 050607\nmove s0 3\nirq s0\nwritei c0 s0 n 050607\nmove s0 3\nirq s0\nwritei c0 s0 n 050607\npage c0 s0\n",
            "1 ok -\n2 ok CLOSED\n3 ok OPEN\n4 ok SETUP\n5 ok PREPARED\n6 frames 4 RUNNING\n7 moved 3 010203 RUNNING\n8 ok RUNNING\n9 frames 3 RUNNING\n10 moved 3 040506 RUNNING\n11 ok RUNNING\n12 frames 3 RUNNING\n13 moved 3 070506 RUNNING\n14 ok RUNNING\n15 frames 3 RUNNING\n16 moved 3 070506 RUNNING\n17 ok RUNNING\n18 frames 3 RUNNING\n19 moved 3 070506 RUNNING\n20 ok RUNNING\n21 frames 3 RUNNING\n22 moved 3 070506 RUNNING\n23 ok RUNNING\n24 frames 3 RUNNING\n25 moved 3 070506 RUNNING\n26 ok RUNNING\n27 frames 3 RUNNING\n28 moved 3 070506 RUNNING\n29 ok RUNNING\n30 frames 3 RUNNING\n31 moved 3 070506 RUNNING\n32 ok RUNNING\n33 frames 3 RUNNING\n34 ptrs hw 11 appl 15 avail 0 RUNNING\nend s0 RUNNING hw 11 appl 15 moved 27\n",
            "",
        ),
        // A writer falls asleep, is woken and goes on.
        (
            NO_FILE,
            "card s0 basic p\nopen c0 s0\nhw c0 s0 RW_INTERLEAVED U8 1 8000 2 2\nprepare c0 s0\nwritei c0 s0 b 010203040506\nstart c0 s0\nmove s0 2\ngo c0\nirq s0\ngo c0\n",
            "1 ok CLOSED\n2 ok OPEN\n3 ok SETUP\n4 ok PREPARED\n5 asleep RUNNING\n6 busy c0 RUNNING\n7 moved 2 0102 RUNNING\n8 asleep RUNNING\n9 ok RUNNING wake c0\n10 frames 6 RUNNING\nend s0 RUNNING hw 2 appl 6 moved 2\n",
            "",
        ),
        // A write in each state that refuses it.
        (
            NO_FILE,
            "card s0 basic p\nwritei c0 s0 n 01\nopen c0 s0\nwritei c0 s0 n 01\nhw c0 s0 RW_INTERLEAVED U8 1 8000 2 2\nwritei c0 s0 n 01\nprepare c0 s0\nsuspend c0 s0\nwritei c0 s0 n 01\nresume c0 s0\n",
            "1 ok CLOSED\n2 err ENXIO 6 CLOSED\n3 ok OPEN\n4 err EBADFD 77 OPEN\n5 ok SETUP\n6 err EBADFD 77 SETUP\n7 ok PREPARED\n8 ok SUSPENDED\n9 err ESTRPIPE 86 SUSPENDED\n10 ok PREPARED\nend s0 PREPARED hw 0 appl 0 moved 0\n",
            "",
        ),
        // A write, and a read, in each state that refuses it.
        (
            NO_FILE,
            "card s0 basic p\nwritei c0 s0 n 01\nopen c0 s0\nwritei c0 s0 n 01\nhw c0 s0 RW_INTERLEAVED U8 1 8000 2 2\nwritei c0 s0 n 01\nprepare c0 s0\nsuspend c0 s0\nwritei c0 s0 n 01\nresume c0 s0\nreadi c0 s0 n 1\n",
            "1 ok CLOSED\n2 err ENXIO 6 CLOSED\n3 ok OPEN\n4 err EBADFD 77 OPEN\n5 ok SETUP\n6 err EBADFD 77 SETUP\n7 ok PREPARED\n8 ok SUSPENDED\n9 err ESTRPIPE 86 SUSPENDED\n10 ok PREPARED\n11 err EINVAL 22 PREPARED\nend s0 PREPARED hw 0 appl 0 moved 0\n",
            "",
        ),
        // A card that cannot pause.
        (
            NO_FILE,
            "card s0 nopause p\nopen c0 s0\nhw c0 s0 RW_INTERLEAVED U8 1 8000 2 2\nprepare c0 s0\npause c0 s0\n",
            "1 ok CLOSED\n2 ok OPEN\n3 ok SETUP\n4 ok PREPARED\n5 err ENOSYS 38 PREPARED\nend s0 PREPARED hw 0 appl 0 moved 0\n",
            "",
        ),
        // A pause where nothing runs is refused; a paused card does not move.
        (
            NO_FILE,
            "card s0 basic p\nopen c0 s0\nhw c0 s0 RW_INTERLEAVED U8 1 8000 2 2\nprepare c0 s0\npause c0 s0\nwritei c0 s0 n 0102\npause c0 s0\nmove s0 1\nrelease c0 s0\n",
            "1 ok CLOSED\n2 ok OPEN\n3 ok SETUP\n4 ok PREPARED\n5 err EBADFD 77 PREPARED\n6 frames 2 RUNNING\n7 ok PAUSED\n8 idle PAUSED\n9 ok RUNNING\nend s0 RUNNING hw 0 appl 2 moved 0\n",
            "",
        ),
        // A session too short for any buffer.
        (
            NO_FILE,
            "long 15\ncard s0 basic p\nopen c0 s0\nhw c0 s0 RW_INTERLEAVED U8 1 8000 2 2\nprepare c0 s0\n",
            "1 ok -\n2 ok CLOSED\n3 ok OPEN\n4 err EINVAL 22 OPEN\n5 err EBADFD 77 OPEN\nend s0 OPEN hw 0 appl 0 moved 0\n",
            "",
        ),
    ] {
        let (out, text) = told(&rt, rt.alloc(), "run", script, file)?;
        assert_eq!(rt; out.as_slice(), transcript.as_bytes());
        assert_eq!(rt; text.as_str(), fault);
    }
    Ok(())
}

// Groups.
#[test]
fn linked_substreams_change_together(rt: HostRuntime) -> Result<(), Fail> {
    for (file, script, transcript, fault) in [
        // A linked start that fails on the third card changes nobody.
        (
            NO_FILE,
            "card s0 basic p\ncard s1 basic p\nopen c0 s0\nopen c1 s1\nhw c0 s0 RW_INTERLEAVED U8 1 8000 2 2\nhw c1 s1 RW_INTERLEAVED U8 1 8000 2 2\nlink c0 s0 s1\nprepare c0 s0\nsw c0 s0 2 5 4 0 0\nsw c1 s1 2 5 4 0 0\ncard s2 basic p\nopen c2 s2\nhw c2 s2 RW_INTERLEAVED U8 1 8000 2 2\nprepare c2 s2\nsw c2 s2 2 5 4 0 0\nlink c0 s0 s2\nwritei c0 s0 n 0102\nwritei c1 s1 n 0102\nwritei c2 s2 n 0102\nfail s2 1\nstart c0 s0\nmove s0 1\nstart c0 s0\nmove s2 1\n",
            "1 ok CLOSED\n2 ok CLOSED\n3 ok OPEN\n4 ok OPEN\n5 ok SETUP\n6 ok SETUP\n7 ok SETUP\n8 ok PREPARED\n9 ok PREPARED\n10 ok PREPARED\n11 ok CLOSED\n12 ok OPEN\n13 ok SETUP\n14 ok PREPARED\n15 ok PREPARED\n16 ok PREPARED\n17 frames 2 PREPARED\n18 frames 2 PREPARED\n19 frames 2 PREPARED\n20 ok PREPARED\n21 err EIO 5 PREPARED\n22 idle PREPARED\n23 ok RUNNING\n24 moved 1 01 RUNNING\nend s0 RUNNING hw 0 appl 2 moved 0\nend s1 RUNNING hw 0 appl 2 moved 0\nend s2 RUNNING hw 0 appl 2 moved 1\n",
            "",
        ),
        // A linked start that is refused asks no card; then one that fails, and one that is done.
        (
            NO_FILE,
            "card s0 basic p\ncard s1 basic p\nopen c0 s0\nopen c1 s1\nhw c0 s0 RW_INTERLEAVED U8 1 8000 2 2\nhw c1 s1 RW_INTERLEAVED U8 1 8000 2 2\nlink c0 s0 s1\nprepare c0 s0\nsw c0 s0 2 5 4 0 0\nsw c1 s1 2 5 4 0 0\nwritei c0 s0 n 0102\nfail s0 1\nstart c0 s0\nwritei c1 s1 n 0304\nstart c0 s0\nstart c0 s0\n",
            "1 ok CLOSED\n2 ok CLOSED\n3 ok OPEN\n4 ok OPEN\n5 ok SETUP\n6 ok SETUP\n7 ok SETUP\n8 ok PREPARED\n9 ok PREPARED\n10 ok PREPARED\n11 frames 2 PREPARED\n12 ok PREPARED\n13 err EPIPE 32 PREPARED\n14 frames 2 PREPARED\n15 err EIO 5 PREPARED\n16 ok RUNNING\nend s0 RUNNING hw 0 appl 2 moved 0\nend s1 RUNNING hw 0 appl 2 moved 0\n",
            "",
        ),
        // Links that are refused, a link and its end.
        (
            NO_FILE,
            "card s0 basic p\nopen c0 s0\nhw c0 s0 RW_INTERLEAVED U8 1 8000 2 2\ncard s1 basic p\nopen c0 s1\nhw c0 s1 RW_INTERLEAVED U8 1 8000 2 2\ncard s2 basic p\nopen c0 s2\nhw c0 s2 RW_INTERLEAVED U8 1 8000 2 2\nlink c0 s0 s0\nlink c0 s0 s1\nlink c0 s2 s1\nunlink c0 s1\nunlink c0 s0\n",
            "1 ok CLOSED\n2 ok OPEN\n3 ok SETUP\n4 ok CLOSED\n5 ok OPEN\n6 ok SETUP\n7 ok CLOSED\n8 ok OPEN\n9 ok SETUP\n10 err EINVAL 22 SETUP\n11 ok SETUP\n12 err EALREADY 114 SETUP\n13 ok SETUP\n14 err EALREADY 114 SETUP\nend s0 SETUP hw 0 appl 0 moved 0\nend s1 SETUP hw 0 appl 0 moved 0\nend s2 SETUP hw 0 appl 0 moved 0\n",
            "",
        ),
        // A linked drain ends when the last member is through.
        (
            NO_FILE,
            "card s0 basic p\ncard s1 basic p\nopen c0 s0\nopen c1 s1\nhw c0 s0 RW_INTERLEAVED U8 1 8000 2 2\nhw c1 s1 RW_INTERLEAVED U8 1 8000 2 2\nlink c0 s0 s1\nprepare c0 s0\nsw c0 s0 2 5 4 0 0\nsw c1 s1 2 5 4 0 0\nwritei c0 s0 n 0102\nwritei c1 s1 n 01020304\ndrain c0 s0 b\nmove s0 2\nirq s0\nmove s1 3\nirq s1\nmove s1 1\nirq s1\ngo c0\n",
            "1 ok CLOSED\n2 ok CLOSED\n3 ok OPEN\n4 ok OPEN\n5 ok SETUP\n6 ok SETUP\n7 ok SETUP\n8 ok PREPARED\n9 ok PREPARED\n10 ok PREPARED\n11 frames 2 PREPARED\n12 frames 4 PREPARED\n13 asleep DRAINING\n14 moved 2 0102 DRAINING\n15 ok SETUP\n16 moved 3 010203 DRAINING\n17 ok DRAINING\n18 moved 1 04 DRAINING\n19 ok SETUP wake c0\n20 ok SETUP\nend s0 SETUP hw 2 appl 2 moved 2\nend s1 SETUP hw 4 appl 4 moved 4\n",
            "",
        ),
        // A card is removed under a sleeping writer.
        (
            NO_FILE,
            "card s0 basic p\nopen c0 s0\nhw c0 s0 RW_INTERLEAVED U8 1 8000 2 2\nprepare c0 s0\nwritei c0 s0 b 010203040506\nunplug s0\ngo c0\nprepare c0 s0\npoll c0 s0\nunplug s0\nclose c0 s0\nopen c0 s0\n",
            "1 ok CLOSED\n2 ok OPEN\n3 ok SETUP\n4 ok PREPARED\n5 asleep RUNNING\n6 ok DISCONNECTED wake c0\n7 frames 4 DISCONNECTED\n8 err EBADFD 77 DISCONNECTED\n9 poll error DISCONNECTED\n10 err EBADFD 77 DISCONNECTED\n11 ok CLOSED\n12 ok OPEN\nend s0 OPEN hw 0 appl 0 moved 0\n",
            "",
        ),
        // A card is removed in a running group.
        (
            NO_FILE,
            "card s0 basic p\ncard s1 basic p\nopen c0 s0\nopen c1 s1\nhw c0 s0 RW_INTERLEAVED U8 1 8000 2 2\nhw c1 s1 RW_INTERLEAVED U8 1 8000 2 2\nlink c0 s0 s1\nprepare c0 s0\nsw c0 s0 2 5 4 0 0\nsw c1 s1 2 5 4 0 0\nwritei c0 s0 n 0102\nwritei c1 s1 n 0102\nstart c0 s0\nunplug s1\nstatus c0 s0\nprepare c0 s0\nunlink c0 s1\nprepare c0 s0\n",
            "1 ok CLOSED\n2 ok CLOSED\n3 ok OPEN\n4 ok OPEN\n5 ok SETUP\n6 ok SETUP\n7 ok SETUP\n8 ok PREPARED\n9 ok PREPARED\n10 ok PREPARED\n11 frames 2 PREPARED\n12 frames 2 PREPARED\n13 ok RUNNING\n14 ok DISCONNECTED\n15 ptrs hw 0 appl 2 avail 2 SETUP\n16 err EBADFD 77 SETUP\n17 ok DISCONNECTED\n18 ok PREPARED\nend s0 PREPARED hw 0 appl 0 moved 0\nend s1 DISCONNECTED hw 0 appl 2 moved 0\n",
            "",
        ),
    ] {
        let (out, text) = told(&rt, rt.alloc(), "run", script, file)?;
        assert_eq!(rt; out.as_slice(), transcript.as_bytes());
        assert_eq!(rt; text.as_str(), fault);
    }
    Ok(())
}

// Capture.
#[test]
fn captured_frames_are_read(rt: HostRuntime) -> Result<(), Fail> {
    for (file, script, transcript, fault) in [
        // A capture drain: what was captured is read, and then all is over.
        (
            NO_FILE,
            "card s0 basic c\nopen c0 s0\nhw c0 s0 RW_INTERLEAVED U8 1 8000 2 2\nprepare c0 s0\ngive s0 0102030405\nstart c0 s0\nmove s0 3\nirq s0\ndrain c0 s0 n\nreadi c0 s0 b 3\nreadi c0 s0 n 1\n",
            "1 ok CLOSED\n2 ok OPEN\n3 ok SETUP\n4 ok PREPARED\n5 ok PREPARED\n6 ok RUNNING\n7 moved 3 RUNNING\n8 ok RUNNING\n9 err EAGAIN 11 DRAINING\n10 frames 3 010203 DRAINING\n11 frames 0 - SETUP\nend s0 SETUP hw 3 appl 3 moved 3\n",
            "",
        ),
        // A reader sleeps while another client rewinds.
        (
            NO_FILE,
            "card s0 basic c\nopen c0 s0\nhw c0 s0 RW_INTERLEAVED U8 1 8000 2 2\nprepare c0 s0\ngive s0 0a0b\nreadi c1 s0 b 2\nmove s0 1\nirq s0\nreadi c0 s0 n 1\nmove s0 1\nirq s0\nrewind c0 s0 1\ngo c1\n",
            "1 ok CLOSED\n2 ok OPEN\n3 ok SETUP\n4 ok PREPARED\n5 ok PREPARED\n6 asleep RUNNING\n7 moved 1 RUNNING\n8 ok RUNNING\n9 frames 1 0a RUNNING\n10 moved 1 RUNNING\n11 ok RUNNING\n12 frames 1 RUNNING wake c1\n13 frames 2 0a0b RUNNING\nend s0 RUNNING hw 2 appl 2 moved 2\n",
            "",
        ),
        // A card that cannot resume.
        (
            NO_FILE,
            "card s0 noresume p\nopen c0 s0\nhw c0 s0 RW_INTERLEAVED U8 1 8000 2 2\nprepare c0 s0\nsuspend c0 s0\nresume c0 s0\nprepare c0 s0\n",
            "1 ok CLOSED\n2 ok OPEN\n3 ok SETUP\n4 ok PREPARED\n5 ok SUSPENDED\n6 err ENOSYS 38 SUSPENDED\n7 ok PREPARED\nend s0 PREPARED hw 0 appl 0 moved 0\n",
            "",
        ),
        // Delay and poll.
        (
            NO_FILE,
            "card s0 basic p\nopen c0 s0\nhw c0 s0 RW_INTERLEAVED U8 1 8000 2 2\nprepare c0 s0\nwritei c0 s0 n 01020304\ndelay c0 s0\npoll c0 s0\nmove s0 3\nirq s0\npoll c0 s0\n",
            "1 ok CLOSED\n2 ok OPEN\n3 ok SETUP\n4 ok PREPARED\n5 frames 4 RUNNING\n6 delay 4 RUNNING\n7 poll none RUNNING\n8 moved 3 010203 RUNNING\n9 ok RUNNING\n10 poll ready RUNNING\nend s0 RUNNING hw 3 appl 4 moved 3\n",
            "",
        ),
        // What one card took is carried to another, once.
        (
            NO_FILE,
            "card s0 basic p\ncard s1 basic c\nopen c0 s0\nopen c1 s1\nhw c0 s0 RW_INTERLEAVED U8 1 8000 2 2\nhw c1 s1 RW_INTERLEAVED U8 1 8000 2 2\nprepare c0 s0\nprepare c1 s1\nwritei c0 s0 n 01020304\nstart c1 s1\nmove s0 3\ncarry s0 s1\nmove s1 2\nirq s1\nreadi c1 s1 n 2\nirq s0\nmove s0 1\ncarry s0 s1\nmove s1 3\nirq s1\nreadi c1 s1 n 3\ncarry s1 s0\n",
            "1 ok CLOSED\n2 ok CLOSED\n3 ok OPEN\n4 ok OPEN\n5 ok SETUP\n6 ok SETUP\n7 ok PREPARED\n8 ok PREPARED\n9 frames 4 RUNNING\n10 ok RUNNING\n11 moved 3 010203 RUNNING\n12 ok RUNNING\n13 moved 2 RUNNING\n14 ok RUNNING\n15 frames 2 0102 RUNNING\n16 ok RUNNING\n17 moved 1 04 RUNNING\n18 ok RUNNING\n19 moved 3 RUNNING\n20 ok RUNNING\n21 frames 3 030400 RUNNING\n22 err EINVAL 22 RUNNING\nend s0 RUNNING hw 3 appl 4 moved 4\nend s1 RUNNING hw 5 appl 5 moved 5\n",
            "",
        ),
    ] {
        let (out, text) = told(&rt, rt.alloc(), "run", script, file)?;
        assert_eq!(rt; out.as_slice(), transcript.as_bytes());
        assert_eq!(rt; text.as_str(), fault);
    }
    Ok(())
}

// Files that are fed.
#[test]
fn files_are_fed(rt: HostRuntime) -> Result<(), Fail> {
    for (file, script, transcript, fault) in [
        // A file that is no WAV file ends the run.
        (
            b"RIFX\x0c\x04\0\0WAVEfmt \x10\0\0\0\x01\0\x01\0@\x1f\0\0\x80>\0\0\x02\0\x10\0data\xe8\x03\0\0\x01\0\x02\0\x03\0".as_slice(),
            "card s0 basic c\nopen c0 s0\nhw c0 s0 RW_INTERLEAVED U8 1 8000 2 2\nprepare c0 s0\nfeed s0 in.wav\n",
            "1 ok CLOSED\n2 ok OPEN\n3 ok SETUP\n4 ok PREPARED\n",
            "bad wav in.wav: not RIFF",
        ),
        // So does one whose samples are no numbers of PCM.
        (
            b"RIFF\x0c\x04\0\0WAVEfmt \x10\0\0\0\x03\0\x01\0@\x1f\0\0\x80>\0\0\x02\0\x10\0data\xe8\x03\0\0\x01\0\x02\0\x03\0",
            "card s0 basic c\nopen c0 s0\nhw c0 s0 RW_INTERLEAVED U8 1 8000 2 2\nprepare c0 s0\nfeed s0 in.wav\n",
            "1 ok CLOSED\n2 ok OPEN\n3 ok SETUP\n4 ok PREPARED\n",
            "bad wav in.wav: not PCM 3",
        ),
        // So does one without frames.
        (
            b"RIFF\x0c\x04\0\0WAVEfmt \x10\0\0\0\x01\0\x01\0@\x1f\0\0\x80>\0\0\x02\0\x10\0",
            "card s0 basic c\nopen c0 s0\nhw c0 s0 RW_INTERLEAVED U8 1 8000 2 2\nprepare c0 s0\nfeed s0 in.wav\n",
            "1 ok CLOSED\n2 ok OPEN\n3 ok SETUP\n4 ok PREPARED\n",
            "bad wav in.wav: no data",
        ),
        // A file is fed to a capture card.
        (
            b"RIFF(\0\0\0WAVEfmt \x10\0\0\0\x01\0\x01\0@\x1f\0\0@\x1f\0\0\x01\0\x08\0data\x03\0\0\0\x01\x02\x03\0",
            "card s0 basic c\nopen c0 s0\nhw c0 s0 RW_INTERLEAVED U8 1 8000 2 2\nprepare c0 s0\nfeed s0 in.wav\nstart c0 s0\nmove s0 3\nirq s0\nreadi c0 s0 n 4\n",
            "1 ok CLOSED\n2 ok OPEN\n3 ok SETUP\n4 ok PREPARED\n5 ok PREPARED\n6 ok RUNNING\n7 moved 3 RUNNING\n8 ok RUNNING\n9 frames 3 010203 RUNNING\nend s0 RUNNING hw 3 appl 3 moved 3\n",
            "",
        ),
        // A file that is missing ends the run.
        (
            b"RIFF(\0\0\0WAVEfmt \x10\0\0\0\x01\0\x01\0@\x1f\0\0@\x1f\0\0\x01\0\x08\0data\x03\0\0\0\x01\x02\x03\0",
            "card s0 basic c\nopen c0 s0\nhw c0 s0 RW_INTERLEAVED U8 1 8000 2 2\nprepare c0 s0\nfeed s0 in.wav\nstart c0 s0\nmove s0 3\nirq s0\nreadi c0 s0 n 4\nfeed s0 none.wav\n",
            "1 ok CLOSED\n2 ok OPEN\n3 ok SETUP\n4 ok PREPARED\n5 ok PREPARED\n6 ok RUNNING\n7 moved 3 RUNNING\n8 ok RUNNING\n9 frames 3 010203 RUNNING\n",
            "missing none.wav",
        ),
        // Samples of three bytes in four are fed.
        (
            b"RIFF@\0\0\0WAVEfmt (\0\0\0\xfe\xff\x01\0@\x1f\0\0\0}\0\0\x04\0 \0\x16\0\x18\0\0\0\0\0\x01\0\0\0\0\0\x10\0\x80\0\0\xaa\08\x9bqdata\x04\0\0\0\0\x01\x02\x03",
            "card s0 duplex c\nopen c0 s0\nhw c0 s0 RW_INTERLEAVED S24_LE 1 8000 2 2\nprepare c0 s0\nfeed s0 in.wav\nstart c0 s0\nmove s0 1\nreadi c0 s0 n 1\n",
            "1 ok CLOSED\n2 ok OPEN\n3 ok SETUP\n4 ok PREPARED\n5 ok PREPARED\n6 ok RUNNING\n7 moved 1 RUNNING\n8 frames 1 01020300 RUNNING\nend s0 RUNNING hw 1 appl 1 moved 1\n",
            "",
        ),
    ] {
        let (out, text) = told(&rt, rt.alloc(), "run", script, file)?;
        assert_eq!(rt; out.as_slice(), transcript.as_bytes());
        assert_eq!(rt; text.as_str(), fault);
    }
    Ok(())
}

// Pointer calls, mapped and planar frames, parameters.
#[test]
fn buffers_are_set_up_and_moved_in(rt: HostRuntime) -> Result<(), Fail> {
    for (file, script, transcript, fault) in [
        // Rewind, forward and sync.
        (
            NO_FILE,
            "long 31\ncard s0 basic p\nopen c0 s0\nhw c0 s0 RW_INTERLEAVED U8 1 8000 2 2\nprepare c0 s0\nsw c0 s0 2 5 4 0 0\nwritei c0 s0 n 0102\nrewind c0 s0 9\nforward c0 s0 1\nsync c0 s0 16\nsync c0 s0 2\nstart c0 s0\nmove s0 3\nirq s0\nrewind c0 s0 0\nrewind c0 s0 1\n",
            "1 ok -\n2 ok CLOSED\n3 ok OPEN\n4 ok SETUP\n5 ok PREPARED\n6 ok PREPARED\n7 frames 2 PREPARED\n8 frames 2 PREPARED\n9 frames 1 PREPARED\n10 err EINVAL 22 PREPARED\n11 ptrs hw 0 appl 2 avail 2 PREPARED\n12 ok RUNNING\n13 moved 3 010200 RUNNING\n14 ok XRUN\n15 frames 0 XRUN\n16 err EPIPE 32 XRUN\nend s0 XRUN hw 3 appl 2 moved 3\n",
            "",
        ),
        // Frames stored into the mapped buffer.
        (
            NO_FILE,
            "card s0 basic p\nopen c0 s0\nhw c0 s0 MMAP_INTERLEAVED U8 1 8000 2 2\nmmap c0 s0\nprepare c0 s0\nstore c0 s0 2 0a0b\nstore c0 s0 3 0c0d\nsync c0 s0 4\nhwfree c0 s0\nmunmap c0 s0\nmunmap c0 s0\nstart c0 s0\nmove s0 3\n",
            "1 ok CLOSED\n2 ok OPEN\n3 ok SETUP\n4 ok SETUP\n5 ok PREPARED\n6 frames 2 PREPARED\n7 err EINVAL 22 PREPARED\n8 ptrs hw 0 appl 4 avail 0 PREPARED\n9 err EBADFD 77 PREPARED\n10 ok PREPARED\n11 err EINVAL 22 PREPARED\n12 ok RUNNING\n13 moved 3 00000a RUNNING\nend s0 RUNNING hw 0 appl 4 moved 3\n",
            "",
        ),
        // Frames channel by channel.
        (
            NO_FILE,
            "card s0 basic p\nopen c0 s0\nhw c0 s0 RW_NONINTERLEAVED U8 2 8000 2 2\nprepare c0 s0\nwritei c0 s0 n 0102\nwriten c0 s0 n 01021112\nmove s0 2\n",
            "1 ok CLOSED\n2 ok OPEN\n3 ok SETUP\n4 ok PREPARED\n5 err EINVAL 22 PREPARED\n6 frames 2 RUNNING\n7 moved 2 01110212 RUNNING\nend s0 RUNNING hw 0 appl 2 moved 2\n",
            "",
        ),
        // A refused configuration leaves none.
        (
            NO_FILE,
            "card s0 basic p\nopen c0 s0\nhw c0 s0 RW_INTERLEAVED U8 1 8000 2 2\nprepare c0 s0\nhw c0 s0 RW_INTERLEAVED S32_BE 1 8000 2 2\n",
            "1 ok CLOSED\n2 ok OPEN\n3 ok SETUP\n4 ok PREPARED\n5 err EINVAL 22 OPEN\nend s0 OPEN hw 0 appl 0 moved 0\n",
            "",
        ),
    ] {
        let (out, text) = told(&rt, rt.alloc(), "run", script, file)?;
        assert_eq!(rt; out.as_slice(), transcript.as_bytes());
        assert_eq!(rt; text.as_str(), fault);
    }
    Ok(())
}

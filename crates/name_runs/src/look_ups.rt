// What the look-up shows, and how single lines are answered, with two lists of names.
use names::look_up::look_up;
use planner::open::new_session;
use responder::line::answer_line;
use sessions::Session;
use std::io;

// A name, and the row that it finds.
fn show(rt: &impl Print, name: &str, site: &[u8], house: &[u8]) -> io::Result<()> {
    print!(rt; "{name}: ")?;
    rt.write_all(look_up(name.as_bytes(), site, house).unwrap_or_default())?;
    println!(rt)
}

// Answers a line, and gives the session afterwards.
fn answer(
    rt: &impl Print,
    session: Session,
    line: &[u8],
    site: &[u8],
    house: &[u8],
) -> io::Result<Session> {
    let reply = answer_line(session, line, site, house);
    let text = reply.text;
    rt.write_all(&text[..reply.length])?;
    Ok(reply.session)
}

// A name of both lists, one of each, the beginning of one, and none.
pub fn look_up_each(rt: &impl Print, site: &[u8], house: &[u8]) -> io::Result<()> {
    for name in ["BOTH", "SITE", "HOUSE", "HOUS", ""] {
        show(rt, name, site, house)?;
    }
    let mut session = new_session();
    for line in [
        "open\tG\t15\t0\t0\t-\n",
        "named\t1\tBOTH\t15\n",
        "named\t2\tHOUSE\t15\n",
        "turn\n",
    ] {
        session = answer(rt, session, line.as_bytes(), site, house)?;
    }
    Ok(())
}

use super::Script;
use crate::repeated;
use std::test::Fail;

/// 40 links are followed, and not 41.
#[test]
fn links_of_a_path(rt: HostRuntime) -> Result<(), Fail> {
    let alloc = rt.alloc();
    let mut script = Script::new(alloc, "")?;
    script.add(alloc, "mkdir /d", "ok")?;
    for link in 0..40 {
        let text = link + 1;
        script.add(alloc, &format!(in alloc; "symlink l{text} /l{link}")?, "ok")?;
    }
    script.add(alloc, "symlink d /l40", "ok")?;
    script.add(alloc, "stat /l1", "ok dir")?;
    script.add(alloc, "stat /l0", "ELOOP")?;
    script.add(alloc, "lstat /l0", "ok link 2")?;
    script.add(alloc, "stat /l1/", "ok dir")?;
    script.add(alloc, "lstat /l0/", "ELOOP")?;
    script.add(alloc, "mkdir /l1/a", "ok")?;
    script.add(alloc, "mkdir /l0/b", "ELOOP")?;
    // Each path of a move may follow so many.
    script.add(alloc, "rename /l1/a /l1/b", "ok")?;
    script.add(alloc, "list /l1 0", "ok b")?;
    Ok(script.run(&rt, alloc)?)
}

/// 256 names are taken and not 257, those of links among them.
#[test]
fn names_of_a_path(rt: HostRuntime) -> Result<(), Fail> {
    let alloc = rt.alloc();
    let mut script = Script::new(alloc, "")?;
    script.add(alloc, "mkdir /d", "ok")?;
    let link = repeated(alloc, "symlink ", "d/../", 51, " /l")?;
    script.add(alloc, &link, "ok")?;
    script.add(alloc, "lstat /l", "ok link 255")?;
    let most = repeated(alloc, "stat /l", "/d/..", 76, "/d")?;
    script.add(alloc, &most, "ok dir")?;
    let more = repeated(alloc, "stat /l", "/d/..", 76, "/d/..")?;
    script.add(alloc, &more, "ENAMETOOLONG")?;
    let last = repeated(alloc, "mkdir /l", "/d/..", 76, "/new")?;
    script.add(alloc, &last, "ok")?;
    let behind = repeated(alloc, "mkdir /l", "/d/..", 76, "/d/new")?;
    script.add(alloc, &behind, "ENAMETOOLONG")?;
    Ok(script.run(&rt, alloc)?)
}

/// A link's text has 255 bytes at most, and so has a name of each call.
#[test]
fn lengths(rt: HostRuntime) -> Result<(), Fail> {
    let alloc = rt.alloc();
    let mut script = Script::new(alloc, "")?;
    let text = repeated(alloc, "", "n", 255, "")?;
    script.add(alloc, &format!(in alloc; "symlink {text} /l")?, "ok")?;
    script.add(alloc, "lstat /l", "ok link 255")?;
    script.add(alloc, "readlink /l", &format!(in alloc; "ok {text}")?)?;
    script.add(
        alloc,
        &format!(in alloc; "symlink {text}n /m")?,
        "ENAMETOOLONG",
    )?;
    script.add(
        alloc,
        &format!(in alloc; "symlink {text}n %_")?,
        "ENAMETOOLONG",
    )?;
    script.add(alloc, &format!(in alloc; "mkdir /{text}")?, "ok")?;
    script.add(alloc, "stat /l", "ok dir")?;
    script.add(
        alloc,
        &format!(in alloc; "rename /{text} /{text}n")?,
        "ENAMETOOLONG",
    )?;
    script.add(
        alloc,
        &format!(in alloc; "rename /{text}n %_")?,
        "ENAMETOOLONG",
    )?;
    script.add(
        alloc,
        &format!(in alloc; "rename /none/{text}n /x")?,
        "ENOENT",
    )?;
    script.add(
        alloc,
        &format!(in alloc; "unlink /{text}n")?,
        "ENAMETOOLONG",
    )?;
    script.add(alloc, &format!(in alloc; "rmdir /{text}")?, "ok")?;
    Ok(script.run(&rt, alloc)?)
}

/// A list has 32 names at most.
#[test]
fn names_of_a_list(rt: HostRuntime) -> Result<(), Fail> {
    let alloc = rt.alloc();
    let mut script = Script::new(alloc, "")?;
    let mut lists = [String::new(alloc), String::new(alloc), String::new(alloc)];
    for number in 100..170usize {
        script.add(alloc, &format!(in alloc; "mkdir /{number}")?, "ok")?;
        lists[(number - 100) / 32].push_str(&format!(in alloc; " {number}")?)?;
    }
    for (start, names) in ["0", "32", "64"].iter().zip(&lists) {
        script.add(
            alloc,
            &format!(in alloc; "list / {start}")?,
            &format!(in alloc; "ok{names}")?,
        )?;
    }
    script.add(alloc, "list / 69", "ok 169")?;
    script.add(alloc, "list / 70", "ok")?;
    Ok(script.run(&rt, alloc)?)
}

/// A trace of the most calls is run.
#[test]
fn calls_of_a_trace(rt: HostRuntime) -> Result<(), Fail> {
    let alloc = rt.alloc();
    let mut script = Script::new(alloc, "")?;
    script.add(alloc, "mkdir /a", "ok")?;
    for _ in 0..8_191 {
        script.add(alloc, "stat /a", "ok dir")?;
    }
    Ok(script.run(&rt, alloc)?)
}

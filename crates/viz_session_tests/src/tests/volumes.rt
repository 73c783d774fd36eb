//! The bounds of numbers in words of a command.

use super::*;

// Whether the words are those of a command.
fn is_command<R: Threads + Wait + Sync + Abort>(
    rt: &R,
    alloc: Global,
    line: &str,
) -> Result<bool, Fail> {
    let first = MemoryPort::new(alloc, Vec::new(alloc), FILE_LIMIT, Vec::new(alloc));
    let left = run_over(rt, alloc, line, b"", first)?;
    Ok(left.status != Status::Usage)
}

#[test]
fn a_volume_has_bounds(rt: HostRuntime) -> Result<(), Fail> {
    let alloc = rt.alloc();
    for (line, is) in [
        ("make 2147483647 1 1 1 v.vtk", true),
        ("make 2147483648 1 1 1 v.vtk", false),
        ("make -1 1 1 1 v.vtk", false),
        ("make 7 64 64 64 v.vtk", true),
        ("make 7 64 64 65 v.vtk", false),
        ("make 7 1 1 262144 v.vtk", true),
        ("make 7 1 1 262145 v.vtk", false),
        ("make 7 2 0 2 v.vtk", false),
        ("make 7 2 2 v.vtk", false),
        ("scratch j 65536 iso o.vtk", true),
        ("scratch j 65537 iso o.vtk", false),
    ] {
        assert!(rt; is_command(&rt, alloc, line)? == is, "{line}");
    }
    Ok(())
}

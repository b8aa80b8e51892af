//! Accepted task sets, with the bytes and the maps that an independent program worked out.

use crate::judging::expands_to;
use std::test::Fail;

#[test]
fn a_plain_workload_is_itself(rt: HostRuntime) -> Result<(), Fail> {
    let set =
        b"limit 9\nthread clock-0 rt 59 inf\nthread z ts 30 0 0\nscript clock-0\nnap 3\nrun 1\nend\nscript z\nrun 4\nend\n";
    let workload =
        b"limit 9\nthread clock-0 rt 59 inf\nthread z ts 30 0 0\nscript clock-0\nnap 3\nrun 1\nend\nscript z\nrun 4\nend\n";
    let map = [1, 2, 3, 4, 5, 6, 7, 8, 9, 10];
    assert!(rt; expands_to(rt.alloc(), set, workload, &map));
    Ok(())
}

#[test]
fn one_task(rt: HostRuntime) -> Result<(), Fail> {
    let set = b"limit 30\ntask a rt 50 inf period 10\njob a\nrun 3\nend\n";
    let workload =
        b"limit 30\nsema a 0\nthread a rt 50 inf\nscript a\nsemap a\nrun 3\nsemap a\nrun 3\nsemap a\nrun 3\nend\nthread clock-0 rt 59 inf priv\nscript clock-0\nsemav a\nnap 10\nsemav a\nnap 10\nsemav a\nend\n";
    let map = [1, 2, 2, 3, 3, 4, 3, 4, 3, 4, 5, 6, 6, 6, 6, 6, 6, 6, 6];
    assert!(rt; expands_to(rt.alloc(), set, workload, &map));
    Ok(())
}

#[test]
fn a_task_without_a_job(rt: HostRuntime) -> Result<(), Fail> {
    let set = b"limit 12\ntask a rt 5 inf period 4\ntask b rt 6 inf period 5\njob b\nrun 1\nend\n";
    let workload =
        b"limit 12\nsema a 0\nthread a rt 5 inf\nsema b 0\nthread b rt 6 inf\nscript b\nsemap b\nrun 1\nsemap b\nrun 1\nsemap b\nrun 1\nend\nthread clock-0 rt 59 inf priv\nscript a\nsemap a\nsemap a\nsemap a\nend\nscript clock-0\nsemav a\nsemav b\nnap 4\nsemav a\nnap 1\nsemav b\nnap 3\nsemav a\nnap 2\nsemav b\nend\n";
    let map = [
        1, 2, 2, 3, 3, 4, 4, 5, 4, 5, 4, 5, 6, 7, 2, 2, 2, 2, 2, 7, 7, 7, 7, 7, 7, 7, 7, 7, 7, 7, 7,
    ];
    assert!(rt; expands_to(rt.alloc(), set, workload, &map));
    Ok(())
}

#[test]
fn an_empty_job(rt: HostRuntime) -> Result<(), Fail> {
    let set = b"limit 8\ntask a rt 5 inf period 4\njob a\nend\n";
    let workload =
        b"limit 8\nsema a 0\nthread a rt 5 inf\nscript a\nsemap a\nsemap a\nend\nthread clock-0 rt 59 inf priv\nscript clock-0\nsemav a\nnap 4\nsemav a\nend\n";
    let map = [1, 2, 2, 3, 3, 3, 4, 5, 5, 5, 5, 5, 5];
    assert!(rt; expands_to(rt.alloc(), set, workload, &map));
    Ok(())
}

#[test]
fn releases_at_and_beyond_the_limit(rt: HostRuntime) -> Result<(), Fail> {
    let set =
        b"limit 10\ntask a rt 5 inf period 4 offset 10\ntask b rt 5 inf period 3 offset 9\njob a\nrun 1\nend\njob b\nrun 1\nend\n";
    let workload =
        b"limit 10\nsema a 0\nthread a rt 5 inf\nsema b 0\nthread b rt 5 inf\nscript a\nend\nscript b\nsemap b\nrun 1\nend\nthread clock-0 rt 59 inf priv\nscript clock-0\nnap 9\nsemav b\nend\n";
    let map = [1, 2, 2, 3, 3, 4, 6, 7, 7, 8, 9, 10, 10, 10, 10, 10];
    assert!(rt; expands_to(rt.alloc(), set, workload, &map));
    Ok(())
}

#[test]
fn bounded_jobs(rt: HostRuntime) -> Result<(), Fail> {
    let set =
        b"limit 10\ntask a rt 5 inf period 3 jobs 9\ntask b rt 4 inf period 3 jobs 2\njob a\nrun 1\nend\njob b\nrun 1\nend\n";
    let workload =
        b"limit 10\nsema a 0\nthread a rt 5 inf\nsema b 0\nthread b rt 4 inf\nscript a\nsemap a\nrun 1\nsemap a\nrun 1\nsemap a\nrun 1\nsemap a\nrun 1\nend\nscript b\nsemap b\nrun 1\nsemap b\nrun 1\nend\nthread clock-0 rt 59 inf priv\nscript clock-0\nsemav a\nsemav b\nnap 3\nsemav a\nsemav b\nnap 3\nsemav a\nnap 3\nsemav a\nend\n";
    let map = [
        1, 2, 2, 3, 3, 4, 4, 5, 4, 5, 4, 5, 4, 5, 6, 7, 7, 8, 7, 8, 9, 10, 10, 10, 10, 10, 10, 10,
        10, 10, 10, 10, 10,
    ];
    assert!(rt; expands_to(rt.alloc(), set, workload, &map));
    Ok(())
}

#[test]
fn deadlines_at_the_end(rt: HostRuntime) -> Result<(), Fail> {
    let set =
        b"limit 20\ntask a rt 9 inf period 10 offset 5 deadline 5\ntask b rt 8 inf period 20 deadline 20\njob a\nrun 5\nend\njob b\nrun 15\nend\n";
    let workload =
        b"limit 20\nsema a 0\nthread a rt 9 inf\nsema b 0\nthread b rt 8 inf\nscript a\nsemap a\nrun 5\nsemap a\nrun 5\nend\nscript b\nsemap b\nrun 15\nend\nthread clock-0 rt 59 inf priv\nscript clock-0\nsemav b\nnap 5\nsemav a\nnap 10\nsemav a\nend\n";
    let map = [
        1, 2, 2, 3, 3, 4, 4, 5, 4, 5, 6, 7, 7, 8, 9, 10, 10, 10, 10, 10, 10, 10, 10,
    ];
    assert!(rt; expands_to(rt.alloc(), set, workload, &map));
    Ok(())
}

#[test]
fn repeats(rt: HostRuntime) -> Result<(), Fail> {
    let set =
        b"limit 60\nmutex m\ntask a fx 60 30 inf period 30\nthread z ts 10 0 0\njob a\nrepeat 2\nenter m\nrepeat 3\nrun 1\nyield\nend\nexit m\nend\nend\nscript z\nrepeat 20\nrun 2\nnap 1\nend\nend\n";
    let workload =
        b"limit 60\nmutex m\nsema a 0\nthread a fx 60 30 inf\nthread z ts 10 0 0\nscript a\nsemap a\nenter m\nrun 1\nyield\nrun 1\nyield\nrun 1\nyield\nexit m\nenter m\nrun 1\nyield\nrun 1\nyield\nrun 1\nyield\nexit m\nsemap a\nenter m\nrun 1\nyield\nrun 1\nyield\nrun 1\nyield\nexit m\nenter m\nrun 1\nyield\nrun 1\nyield\nrun 1\nyield\nexit m\nend\nscript z\nrun 2\nnap 1\nrun 2\nnap 1\nrun 2\nnap 1\nrun 2\nnap 1\nrun 2\nnap 1\nrun 2\nnap 1\nrun 2\nnap 1\nrun 2\nnap 1\nrun 2\nnap 1\nrun 2\nnap 1\nrun 2\nnap 1\nrun 2\nnap 1\nrun 2\nnap 1\nrun 2\nnap 1\nrun 2\nnap 1\nrun 2\nnap 1\nrun 2\nnap 1\nrun 2\nnap 1\nrun 2\nnap 1\nrun 2\nnap 1\nend\nthread clock-0 rt 59 inf priv\nscript clock-0\nsemav a\nnap 30\nsemav a\nend\n";
    let map = [
        1, 2, 3, 3, 4, 5, 5, 7, 9, 10, 9, 10, 9, 10, 12, 7, 9, 10, 9, 10, 9, 10, 12, 5, 7, 9, 10,
        9, 10, 9, 10, 12, 7, 9, 10, 9, 10, 9, 10, 12, 14, 15, 17, 18, 17, 18, 17, 18, 17, 18, 17,
        18, 17, 18, 17, 18, 17, 18, 17, 18, 17, 18, 17, 18, 17, 18, 17, 18, 17, 18, 17, 18, 17, 18,
        17, 18, 17, 18, 17, 18, 17, 18, 20, 21, 21, 21, 21, 21, 21,
    ];
    assert!(rt; expands_to(rt.alloc(), set, workload, &map));
    Ok(())
}

#[test]
fn late_arrivals(rt: HostRuntime) -> Result<(), Fail> {
    let set =
        b"limit 20\nthread a rt 9 inf start 5\nthread b ts 30 0 0 start 0\nthread c fx 60 50 inf\nscript a\nrun 3\nend\nscript b\nrun 2\nend\nscript c\nrun 9\nend\n";
    let workload =
        b"limit 20\nsema a 0\nthread a rt 9 inf\nsema b 0\nthread b ts 30 0 0\nthread c fx 60 50 inf\nscript a\nsemap a\nrun 3\nend\nscript b\nsemap b\nrun 2\nend\nscript c\nrun 9\nend\nthread clock-0 rt 59 inf priv\nscript clock-0\nsemav b\nnap 5\nsemav a\nend\n";
    let map = [
        1, 2, 2, 3, 3, 4, 5, 5, 6, 7, 8, 8, 9, 10, 11, 12, 13, 14, 14, 14, 14, 14, 14,
    ];
    assert!(rt; expands_to(rt.alloc(), set, workload, &map));
    Ok(())
}

#[test]
fn all_classes(rt: HostRuntime) -> Result<(), Fail> {
    let set =
        b"limit 40\ntask a ts 30 0 0 uid 5 period 20\ntask b fx 60 30 2 period 20\ntask c sys 60 period 20\ntask d rt 0 3 priv period 20\njob a\nrun 4\nend\njob b\nrun 4\nend\njob c\nrun 4\nend\njob d\nrun 4\nend\n";
    let workload =
        b"limit 40\nsema a 0\nthread a ts 30 0 0 uid 5\nsema b 0\nthread b fx 60 30 2\nsema c 0\nthread c sys 60\nsema d 0\nthread d rt 0 3 priv\nscript a\nsemap a\nrun 4\nsemap a\nrun 4\nend\nscript b\nsemap b\nrun 4\nsemap b\nrun 4\nend\nscript c\nsemap c\nrun 4\nsemap c\nrun 4\nend\nscript d\nsemap d\nrun 4\nsemap d\nrun 4\nend\nthread clock-0 rt 59 inf priv\nscript clock-0\nsemav a\nsemav b\nsemav c\nsemav d\nnap 20\nsemav a\nsemav b\nsemav c\nsemav d\nend\n";
    let map = [
        1, 2, 2, 3, 3, 4, 4, 5, 5, 6, 6, 7, 6, 7, 8, 9, 9, 10, 9, 10, 11, 12, 12, 13, 12, 13, 14,
        15, 15, 16, 15, 16, 17, 18, 18, 18, 18, 18, 18, 18, 18, 18, 18, 18, 18,
    ];
    assert!(rt; expands_to(rt.alloc(), set, workload, &map));
    Ok(())
}

#[test]
fn a_binding_without_a_clock(rt: HostRuntime) -> Result<(), Fail> {
    let set =
        b"cpus 2\nlimit 12\nthread a ts 20 0 0 on 0\nthread b ts 40 0 0 on 0\nscript a\nrun 5\nend\nscript b\nrun 4\nend\n";
    let workload =
        b"cpus 2\nlimit 12\nthread a ts 20 0 0\nthread b ts 40 0 0\nscript a\nrun 5\nend\nscript b\nrun 4\nend\nthread start-0 rt 59 inf priv\nthread start-1 rt 59 inf priv\nscript start-0\npbind a 0\npbind b 0\nend\nscript start-1\npbind a 0\npbind b 0\nend\n";
    let map = [
        1, 2, 3, 4, 5, 6, 7, 8, 9, 10, 11, 11, 11, 11, 11, 11, 11, 11, 11, 11,
    ];
    assert!(rt; expands_to(rt.alloc(), set, workload, &map));
    Ok(())
}

#[test]
fn unbound_tasks_on_two_processors(rt: HostRuntime) -> Result<(), Fail> {
    let set =
        b"cpus 2\nlimit 40\ntask a rt 30 inf period 10\ntask b rt 20 inf period 10\ntask c rt 10 inf period 20\njob a\nrun 4\nend\njob b\nrun 5\nend\njob c\nrun 7\nend\n";
    let workload =
        b"cpus 2\nlimit 40\nsema a 0\nthread a rt 30 inf\nsema b 0\nthread b rt 20 inf\nsema c 0\nthread c rt 10 inf\nscript a\nsemap a\nrun 4\nsemap a\nrun 4\nsemap a\nrun 4\nsemap a\nrun 4\nend\nscript b\nsemap b\nrun 5\nsemap b\nrun 5\nsemap b\nrun 5\nsemap b\nrun 5\nend\nscript c\nsemap c\nrun 7\nsemap c\nrun 7\nend\nthread start-0 rt 59 inf priv\nthread start-1 rt 59 inf priv\nthread clock-0 rt 59 inf priv\nscript start-0\npbind clock-0 0\nend\nscript start-1\npbind clock-0 0\nend\nscript clock-0\nsemav a\nsemav b\nsemav c\nnap 10\nsemav a\nsemav b\nnap 10\nsemav a\nsemav b\nsemav c\nnap 10\nsemav a\nsemav b\nend\n";
    let map = [
        1, 2, 3, 3, 4, 4, 5, 5, 6, 6, 7, 6, 7, 6, 7, 6, 7, 8, 9, 9, 10, 9, 10, 9, 10, 9, 10, 11,
        12, 12, 13, 12, 13, 14, 15, 15, 15, 15, 15, 15, 15, 15, 15, 15, 15, 15, 15, 15, 15, 15, 15,
        15, 15, 15, 15, 15, 15, 15,
    ];
    assert!(rt; expands_to(rt.alloc(), set, workload, &map));
    Ok(())
}

#[test]
fn sets(rt: HostRuntime) -> Result<(), Fail> {
    let set =
        b"cpus 4\nlimit 30\nset s 1 3\nset u 2\ntask a rt 30 inf in s period 10\ntask b rt 20 inf in s period 10 on 3\ntask c rt 10 inf in u period 15 on 2\ntask d rt 10 inf period 15\nthread e ts 30 0 0 in s start 4 on 1\njob a\nrun 4\nend\njob b\nrun 5\nend\njob c\nrun 7\nend\njob d\nrun 2\nend\nscript e\nrun 9\nend\n";
    let workload =
        b"cpus 4\nlimit 30\nset s 1 3\nset u 2\nsema a 0\nthread a rt 30 inf in s\nsema b 0\nthread b rt 20 inf in s\nsema c 0\nthread c rt 10 inf in u\nsema d 0\nthread d rt 10 inf\nsema e 0\nthread e ts 30 0 0 in s\nscript a\nsemap a\nrun 4\nsemap a\nrun 4\nsemap a\nrun 4\nend\nscript b\nsemap b\nrun 5\nsemap b\nrun 5\nsemap b\nrun 5\nend\nscript c\nsemap c\nrun 7\nsemap c\nrun 7\nend\nscript d\nsemap d\nrun 2\nsemap d\nrun 2\nend\nscript e\nsemap e\nrun 9\nend\nthread start-0 rt 59 inf priv\nthread start-1 rt 59 inf priv in s\nthread start-2 rt 59 inf priv in u\nthread start-3 rt 59 inf priv in s\nthread clock-0 rt 59 inf priv\nthread clock-1 rt 59 inf priv in s\nthread clock-2 rt 59 inf priv in u\nthread clock-3 rt 59 inf priv in s\nscript start-0\npbind clock-0 0\nend\nscript start-1\npbind clock-1 1\npbind clock-3 3\npbind b 3\npbind e 1\nend\nscript start-2\npbind clock-2 2\npbind c 2\nend\nscript start-3\npbind clock-1 1\npbind clock-3 3\npbind b 3\npbind e 1\nend\nscript clock-0\nsemav d\nnap 15\nsemav d\nend\nscript clock-1\nsemav a\nnap 4\nsemav e\nnap 6\nsemav a\nnap 10\nsemav a\nend\nscript clock-2\nsemav c\nnap 15\nsemav c\nend\nscript clock-3\nsemav b\nnap 10\nsemav b\nnap 10\nsemav b\nend\n";
    let map = [
        1, 2, 3, 4, 5, 5, 6, 6, 7, 7, 8, 8, 9, 9, 10, 10, 11, 10, 11, 10, 11, 12, 13, 13, 14, 13,
        14, 13, 14, 15, 16, 16, 17, 16, 17, 18, 19, 19, 20, 19, 20, 21, 22, 22, 23, 24, 25, 25, 25,
        25, 25, 25, 25, 25, 25, 25, 25, 25, 25, 25, 25, 25, 25, 25, 25, 25, 25, 25, 25, 25, 25, 25,
        25, 25, 25, 25, 25, 25, 25, 25, 25, 25, 25, 25, 25, 25, 25, 25, 25, 25, 25, 25, 25, 25, 25,
        25, 25, 25, 25,
    ];
    assert!(rt; expands_to(rt.alloc(), set, workload, &map));
    Ok(())
}

#[test]
fn a_nap_in_a_job(rt: HostRuntime) -> Result<(), Fail> {
    let set =
        b"limit 30\ntask a rt 30 inf period 10\ntask b rt 20 inf period 10\njob a\nrun 1\nnap 3\nrun 1\nend\njob b\nrun 4\nnap 2\nend\n";
    let workload =
        b"limit 30\nsema a 0\nthread a rt 30 inf\nsema b 0\nthread b rt 20 inf\nscript a\nsemap a\nrun 1\nnap 3\nrun 1\nsemap a\nrun 1\nnap 3\nrun 1\nsemap a\nrun 1\nnap 3\nrun 1\nend\nscript b\nsemap b\nrun 4\nnap 2\nsemap b\nrun 4\nnap 2\nsemap b\nrun 4\nnap 2\nend\nthread clock-0 rt 59 inf priv\nscript clock-0\nsemav a\nsemav b\nnap 10\nsemav a\nsemav b\nnap 10\nsemav a\nsemav b\nend\n";
    let map = [
        1, 2, 2, 3, 3, 4, 4, 5, 6, 7, 4, 5, 6, 7, 4, 5, 6, 7, 8, 9, 9, 10, 11, 9, 10, 11, 9, 10,
        11, 12, 13, 13, 13, 13, 13, 13, 13, 13, 13, 13, 13,
    ];
    assert!(rt; expands_to(rt.alloc(), set, workload, &map));
    Ok(())
}

#[test]
fn the_longest_name(rt: HostRuntime) -> Result<(), Fail> {
    let set =
        b"limit 10\ntask abcdefghijklmnop rt 10 inf period 5\njob abcdefghijklmnop\nrun 1\nend\n";
    let workload =
        b"limit 10\nsema abcdefghijklmnop 0\nthread abcdefghijklmnop rt 10 inf\nscript abcdefghijklmnop\nsemap abcdefghijklmnop\nrun 1\nsemap abcdefghijklmnop\nrun 1\nend\nthread clock-0 rt 59 inf priv\nscript clock-0\nsemav abcdefghijklmnop\nnap 5\nsemav abcdefghijklmnop\nend\n";
    let map = [1, 2, 2, 3, 3, 4, 3, 4, 5, 6, 6, 6, 6, 6, 6];
    assert!(rt; expands_to(rt.alloc(), set, workload, &map));
    Ok(())
}

#[test]
fn all_kinds_of_lines(rt: HostRuntime) -> Result<(), Fail> {
    let set =
        b"cpus 2\nhz 100\nlimit 40\ntable fx\n5\n5\n5\n5\n5\n5\n5\n5\n5\n5\n5\n5\n5\n5\n5\n5\n5\n5\n5\n5\n5\n5\n5\n5\n5\n5\n5\n5\n5\n5\n5\n5\n5\n5\n5\n5\n5\n5\n5\n5\n5\n5\n5\n5\n5\n5\n5\n5\n5\n5\n5\n5\n5\n5\n5\n5\n5\n5\n5\n5\nend\nrwlock w\nchan k\nmutex m\ntask a fx 60 3 def period 8 deadline 5\ntask b ts 29 0 0 period 9\nthread c ts 29 0 0 start 3\njob a\nread w\nrun 2\nexit w\nwake k\nend\njob b\nwrite w\nrun 3\nexit w\nend\nscript c\nrepeat 3\nenter m\ncvwait k m\nrun 1\nexit m\nend\nend\n";
    let workload =
        b"cpus 2\nhz 100\nlimit 40\ntable fx\n5\n5\n5\n5\n5\n5\n5\n5\n5\n5\n5\n5\n5\n5\n5\n5\n5\n5\n5\n5\n5\n5\n5\n5\n5\n5\n5\n5\n5\n5\n5\n5\n5\n5\n5\n5\n5\n5\n5\n5\n5\n5\n5\n5\n5\n5\n5\n5\n5\n5\n5\n5\n5\n5\n5\n5\n5\n5\n5\n5\nend\nrwlock w\nchan k\nmutex m\nsema a 0\nthread a fx 60 3 def\nsema b 0\nthread b ts 29 0 0\nsema c 0\nthread c ts 29 0 0\nscript a\nsemap a\nread w\nrun 2\nexit w\nwake k\nsemap a\nread w\nrun 2\nexit w\nwake k\nsemap a\nread w\nrun 2\nexit w\nwake k\nsemap a\nread w\nrun 2\nexit w\nwake k\nsemap a\nread w\nrun 2\nexit w\nwake k\nend\nscript b\nsemap b\nwrite w\nrun 3\nexit w\nsemap b\nwrite w\nrun 3\nexit w\nsemap b\nwrite w\nrun 3\nexit w\nsemap b\nwrite w\nrun 3\nexit w\nsemap b\nwrite w\nrun 3\nexit w\nend\nscript c\nsemap c\nenter m\ncvwait k m\nrun 1\nexit m\nenter m\ncvwait k m\nrun 1\nexit m\nenter m\ncvwait k m\nrun 1\nexit m\nend\nthread start-0 rt 59 inf priv\nthread start-1 rt 59 inf priv\nthread clock-0 rt 59 inf priv\nscript start-0\npbind clock-0 0\nend\nscript start-1\npbind clock-0 0\nend\nscript clock-0\nsemav a\nsemav b\nnap 3\nsemav c\nnap 5\nsemav a\nnap 1\nsemav b\nnap 7\nsemav a\nnap 2\nsemav b\nnap 6\nsemav a\nnap 3\nsemav b\nnap 5\nsemav a\nnap 4\nsemav b\nend\n";
    let map = [
        1, 2, 3, 4, 5, 6, 7, 8, 9, 10, 11, 12, 13, 14, 15, 16, 17, 18, 19, 20, 21, 22, 23, 24, 25,
        26, 27, 28, 29, 30, 31, 32, 33, 34, 35, 36, 37, 38, 39, 40, 41, 42, 43, 44, 45, 46, 47, 48,
        49, 50, 51, 52, 53, 54, 55, 56, 57, 58, 59, 60, 61, 62, 63, 64, 65, 66, 67, 68, 69, 69, 70,
        70, 71, 71, 72, 72, 73, 74, 75, 76, 72, 73, 74, 75, 76, 72, 73, 74, 75, 76, 72, 73, 74, 75,
        76, 72, 73, 74, 75, 76, 77, 78, 78, 79, 80, 81, 78, 79, 80, 81, 78, 79, 80, 81, 78, 79, 80,
        81, 78, 79, 80, 81, 82, 83, 83, 85, 86, 87, 88, 85, 86, 87, 88, 85, 86, 87, 88, 90, 91, 91,
        91, 91, 91, 91, 91, 91, 91, 91, 91, 91, 91, 91, 91, 91, 91, 91, 91, 91, 91, 91, 91, 91, 91,
        91, 91, 91, 91, 91, 91,
    ];
    assert!(rt; expands_to(rt.alloc(), set, workload, &map));
    Ok(())
}

use super::{JudgeFault, PlacedFault, RecordFault, Refused, Verdict, whole_records};
use std::test::Fail;

// Both ends of a file's size, and a cut record.
#[test]
fn a_file_has_whole_records(rt: HostRuntime) {
    let bytes = [0u8; 65_537];
    for (size, records) in [(0, 0), (32, 1), (64, 2), (65_536, 2_048)] {
        assert_eq!(rt;
            whole_records(bytes.get(0..size).unwrap_or(&[])),
            Ok(records)
        );
    }
    for (size, place) in [(1, 0), (31, 0), (33, 1), (65_535, 2_047)] {
        let cut = JudgeFault::from(PlacedFault {
            fault: RecordFault::Length,
            place,
        });
        assert_eq!(rt; whole_records(bytes.get(0..size).unwrap_or(&[])), Err(cut));
    }
    assert_eq!(rt; whole_records(&bytes), Err(JudgeFault::TooLong));
}

// Every fault, with its number and place.
#[test]
fn faults_are_shown(rt: HostRuntime) -> Result<(), Fail> {
    let cases = [
        (JudgeFault::TooLong, "REFUSED 20 AT 2048"),
        (
            JudgeFault::Record(PlacedFault {
                fault: RecordFault::Length,
                place: 3,
            }),
            "REFUSED 21 AT 3",
        ),
        (
            JudgeFault::Record(PlacedFault {
                fault: RecordFault::Words,
                place: 4,
            }),
            "REFUSED 22 AT 4",
        ),
        (JudgeFault::OutOfPlace(5), "REFUSED 23 AT 5"),
        (JudgeFault::NoEnd(6), "REFUSED 24 AT 6"),
        (JudgeFault::FewMarks, "REFUSED 25 AT 0"),
    ];
    for (fault, text) in cases {
        assert_eq!(rt; Refused::from(fault).to_string(rt.alloc())?.as_str(), text);
    }
    Ok(())
}

#[test]
fn verdicts_are_shown(rt: HostRuntime) -> Result<(), Fail> {
    let verdict = Verdict {
        aca: true,
        cons: false,
        wcf: true,
    };
    assert_eq!(rt;
        verdict.to_string(rt.alloc())?.as_str(),
        "ACA=Y CONS=N WCF=Y"
    );
    let verdict = Verdict {
        aca: false,
        cons: true,
        wcf: false,
    };
    assert_eq!(rt;
        verdict.to_string(rt.alloc())?.as_str(),
        "ACA=N CONS=Y WCF=N"
    );
    Ok(())
}

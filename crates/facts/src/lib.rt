// The worked examples of the documents, as one proved fact of the definitions that the contracts cite.
#![tactic(auto)]

ghost use Rattle.facts.specs.Worked.{Worked};

pub mod runs;

// That the worked examples hold is the contract of this function, which does nothing.
pub fn worked_examples()
    ensures { Worked }
{}

#[cfg(test)]
mod sink_tests;

#[cfg(test)]
mod tests {
    use project::refusal::Refusal;
    use project::tables::{Activity, Head, Kind, Pair, Tables};
    use std::test::Fail;

    // Two activities on one stage, the first before the second.
    const HEAD: Head = Head {
        activities: 2,
        resources: 1,
        capacities: [3, 0, 0, 0],
        pairs: 1,
    };

    const ACTIVITIES: [Activity; 2] = [
        Activity {
            duration: 60,
            demands: [3, 0, 0, 0],
        },
        Activity {
            duration: 0,
            demands: [1, 0, 0, 0],
        },
    ];

    const PAIRS: [Pair; 2] = [
        Pair {
            kind: Kind::And,
            first: 1,
            second: 2,
        },
        Pair {
            kind: Kind::Blank,
            first: 0,
            second: 0,
        },
    ];

    const TABLES: Tables<'static> = Tables {
        head: HEAD,
        activities: &ACTIVITIES,
        pairs: &PAIRS,
    };

    // The text of that project.
    const TEXT: &[u8] = b"C 3\nJ 60 3\nJ 0 1\nA 1 2\nZ 0 4\n";

    #[test]
    fn refusal_is_printed(rt: HostRuntime) -> Result<(), Fail> {
        let line = format!(in rt.alloc(); "{}", Refusal::BadPair(120))?;
        assert_eq!(rt; line.as_str(), "refused 5 at 120");
        Ok(())
    }

    #[test]
    fn refusal_without_a_place(rt: HostRuntime) {
        assert_eq!(rt; Refusal::RulesBroken.number(), 8);
        assert_eq!(rt; Refusal::RulesBroken.place(), 0);
    }

    #[test]
    fn rules_are_kept(rt: HostRuntime) {
        assert!(rt; TABLES.keeps_rules());
    }

    // A record past the head's count is not looked at, and one within it is.
    #[test]
    fn blank_pair_breaks_the_rules(rt: HostRuntime) {
        let head = Head { pairs: 2, ..HEAD };
        assert!(rt; !Tables { head, ..TABLES }.keeps_rules());
    }

    #[test]
    fn demand_past_the_last_resource_breaks_the_rules(rt: HostRuntime) {
        let head = Head {
            resources: 0,
            capacities: [0; 4],
            ..HEAD
        };
        assert!(rt; !Tables { head, ..TABLES }.keeps_rules());
    }

    #[test]
    fn text_fits_exactly(rt: HostRuntime) {
        let mut out = [7; 29];
        assert_eq!(rt; book::write(TABLES, &mut out), Ok(29));
        assert_eq!(rt; &out[..], TEXT);
    }

    #[test]
    fn bytes_past_the_text_stay(rt: HostRuntime) {
        let mut out = [7; 32];
        assert_eq!(rt; book::write(TABLES, &mut out), Ok(29));
        assert_eq!(rt; &out[0..29], TEXT);
        assert_eq!(rt; &out[29..32], [7, 7, 7].as_slice());
    }

    #[test]
    fn one_byte_too_few_writes_nothing(rt: HostRuntime) {
        let mut out = [7; 28];
        assert_eq!(rt; book::write(TABLES, &mut out), Err(Refusal::ShortBuffer));
        assert_eq!(rt; &out[..], [7; 28].as_slice());
    }

    #[test]
    fn broken_tables_write_nothing(rt: HostRuntime) {
        let mut out = [7; 32];
        let head = Head { pairs: 2, ..HEAD };
        assert_eq!(rt;
            book::write(Tables { head, ..TABLES }, &mut out),
            Err(Refusal::RulesBroken)
        );
        assert_eq!(rt; &out[..], [7; 32].as_slice());
    }
}

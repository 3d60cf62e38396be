// Lines of a trace and what each is read as, worked out by hand from the format's rules.
#![tactic(auto)]

#[cfg(test)]
mod tests {
    use calls::call::Call;
    use std::process::Abort;
    use trace::fault::{BadNumber, FieldFault, LineFault};
    use trace::line::read_line;
    use trace::number::NumberFault;
    use trace::stream::steps::next_at;

    fn malformed(place: u32) -> LineFault {
        LineFault::Field(FieldFault::Malformed(place))
    }

    fn bad_number(place: u32, fault: NumberFault) -> LineFault {
        LineFault::Field(FieldFault::Number(BadNumber { place, fault }))
    }

    fn reads(rt: &impl Abort, line: &[u8], expected: Result<Call, LineFault>) {
        assert_eq!(rt; read_line(line), expected);
    }

    #[test]
    fn good_lines_and_orders(rt: HostRuntime) {
        reads(&rt, b"do=start", Ok(Call::Start));
        reads(&rt, b"do=finish", Ok(Call::Finish));
        reads(
            &rt,
            b"do=open session=0 weight=1 limit=100",
            Ok(Call::Open {
                session: 0,
                weight: 1,
                limit: 100,
            }),
        );
        reads(
            &rt,
            b"do=open session=4294967295 weight=4294967295 limit=4294967295",
            Ok(Call::Open {
                session: 4294967295,
                weight: 4294967295,
                limit: 4294967295,
            }),
        );
        reads(
            &rt,
            b"do=enter session=63 length=65535 ticket=0",
            Ok(Call::Enter {
                session: 63,
                length: 65535,
                ticket: 0,
            }),
        );
        reads(
            &rt,
            b"do=enter session=10 length=1000000009 ticket=4294967294",
            Ok(Call::Enter {
                session: 10,
                length: 1000000009,
                ticket: 4294967294,
            }),
        );
        reads(&rt, b"", Err(malformed(1)));
        reads(&rt, b" do=start", Err(malformed(1)));
        reads(&rt, b"start", Err(malformed(1)));
        reads(&rt, b"do=fly", Err(malformed(1)));
        reads(&rt, b"do=", Err(malformed(1)));
    }

    #[test]
    fn orders_and_extra_fields(rt: HostRuntime) {
        reads(&rt, b"DO=start", Err(malformed(1)));
        reads(&rt, b"do=Start", Err(malformed(1)));
        reads(&rt, b"session=1", Err(malformed(1)));
        reads(&rt, b"do=start\r", Err(malformed(1)));
        reads(&rt, b"do=start=", Err(malformed(1)));
        reads(&rt, b"=start", Err(malformed(1)));
        reads(&rt, b"do=start ", Err(malformed(2)));
        reads(&rt, b"do=finish now", Err(malformed(2)));
        reads(&rt, b"do=start do=start", Err(malformed(2)));
        reads(
            &rt,
            b"do=open session=1 weight=2 limit=3 ",
            Err(malformed(5)),
        );
        reads(
            &rt,
            b"do=enter session=1 length=2 ticket=3 limit=4",
            Err(malformed(5)),
        );
    }

    #[test]
    fn absent_and_other_fields(rt: HostRuntime) {
        reads(
            &rt,
            b"do=open session=1 weight=2 limit=3  x",
            Err(malformed(5)),
        );
        reads(&rt, b"do=open", Err(malformed(2)));
        reads(&rt, b"do=open session=1", Err(malformed(3)));
        reads(&rt, b"do=open session=1 weight=2", Err(malformed(4)));
        reads(&rt, b"do=enter", Err(malformed(2)));
        reads(&rt, b"do=enter session=1 length=2", Err(malformed(4)));
        reads(
            &rt,
            b"do=open  session=1 weight=2 limit=3",
            Err(malformed(2)),
        );
        reads(
            &rt,
            b"do=open weight=1 session=2 limit=3",
            Err(malformed(2)),
        );
        reads(
            &rt,
            b"do=open session=1 length=2 limit=3",
            Err(malformed(3)),
        );
        reads(
            &rt,
            b"do=enter session=1 length=2 limit=3",
            Err(malformed(4)),
        );
        reads(
            &rt,
            b"do=open Session=1 weight=2 limit=3",
            Err(malformed(2)),
        );
    }

    #[test]
    fn keys_and_numbers(rt: HostRuntime) {
        reads(&rt, b"do=open session weight=2 limit=3", Err(malformed(2)));
        reads(&rt, b"do=open =1 weight=2 limit=3", Err(malformed(2)));
        reads(&rt, b"do=open do=start weight=2 limit=3", Err(malformed(2)));
        reads(
            &rt,
            b"do=enter session=1 length=2 ticket",
            Err(malformed(4)),
        );
        reads(
            &rt,
            b"do=open session= weight=2 limit=3",
            Err(bad_number(2, NumberFault::Empty)),
        );
        reads(
            &rt,
            b"do=open session=1 weight=2 limit=",
            Err(bad_number(4, NumberFault::Empty)),
        );
        reads(
            &rt,
            b"do=open session=x weight=2 limit=3",
            Err(bad_number(2, NumberFault::StrayOctet)),
        );
        reads(
            &rt,
            b"do=open session=1 weight=+2 limit=3",
            Err(bad_number(3, NumberFault::StrayOctet)),
        );
        reads(
            &rt,
            b"do=open session=1 weight=0a limit=3",
            Err(bad_number(3, NumberFault::StrayOctet)),
        );
        reads(
            &rt,
            b"do=enter session=1 length=99999999999x ticket=3",
            Err(bad_number(3, NumberFault::StrayOctet)),
        );
        reads(
            &rt,
            b"do=enter session=5=6 length=2 ticket=3",
            Err(bad_number(2, NumberFault::StrayOctet)),
        );
    }

    #[test]
    fn numbers(rt: HostRuntime) {
        reads(
            &rt,
            b"do=enter session=1 length=2 ticket=3\x0d",
            Err(bad_number(4, NumberFault::StrayOctet)),
        );
        reads(
            &rt,
            b"do=enter session=1 length=-2 ticket=3",
            Err(bad_number(3, NumberFault::StrayOctet)),
        );
        reads(
            &rt,
            b"do=enter session=start length=2 ticket=3",
            Err(bad_number(2, NumberFault::StrayOctet)),
        );
        reads(
            &rt,
            b"do=enter session=00x length=2 ticket=3",
            Err(bad_number(2, NumberFault::StrayOctet)),
        );
        reads(
            &rt,
            b"do=open session=007 weight=2 limit=3",
            Err(bad_number(2, NumberFault::LeadingZero)),
        );
        reads(
            &rt,
            b"do=open session=1 weight=00 limit=3",
            Err(bad_number(3, NumberFault::LeadingZero)),
        );
        reads(
            &rt,
            b"do=enter session=1 length=2 ticket=012345678901234",
            Err(bad_number(4, NumberFault::LeadingZero)),
        );
        reads(
            &rt,
            b"do=open session=4294967296 weight=2 limit=3",
            Err(bad_number(2, NumberFault::TooLarge)),
        );
        reads(
            &rt,
            b"do=enter session=1 length=2 ticket=99999999999999999999",
            Err(bad_number(4, NumberFault::TooLarge)),
        );
        reads(
            &rt,
            b"do=enter session=1 length=10000000000 ticket=3",
            Err(bad_number(3, NumberFault::TooLarge)),
        );
        reads(
            &rt,
            b"do=open session=x weight=y",
            Err(bad_number(2, NumberFault::StrayOctet)),
        );
    }

    #[test]
    fn long_lines_and_first_faults(rt: HostRuntime) {
        reads(
            &rt,
            b"do=open session=1 weight=y limit=3 more",
            Err(bad_number(3, NumberFault::StrayOctet)),
        );
        reads(
            &rt,
            b"do=open session=1 limit=x weight=2",
            Err(malformed(3)),
        );
        reads(
            &rt,
            b"do=start                                                                        ",
            Err(malformed(2)),
        );
        reads(
            &rt,
            b"do=start                                                                         ",
            Err(LineFault::TooLong),
        );
        reads(
            &rt,
            b"xxxxxxxxxxxxxxxxxxxxxxxxxxxxxxxxxxxxxxxxxxxxxxxxxxxxxxxxxxxxxxxxxxxxxxxxxxxxxxxxx",
            Err(LineFault::TooLong),
        );
        reads(
            &rt,
            b"do=open session=1 weight=2 limit=3                                               ",
            Err(LineFault::TooLong),
        );
    }

    #[test]
    fn line_numbers_stay_at_the_top(rt: HostRuntime) {
        assert_eq!(rt; next_at(1), 2);
        assert_eq!(rt; next_at(4_294_967_294), 4_294_967_295);
        assert_eq!(rt; next_at(4_294_967_295), 4_294_967_295);
    }
}

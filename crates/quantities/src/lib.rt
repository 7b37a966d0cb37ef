// Measures made from raw numbers that nobody has checked. What a type promises is in its ghost fields.

#![tactic(auto)]

pub mod basis;
pub mod bundle;
pub mod class;
pub mod duration;
pub mod fault;
pub mod forces;
pub mod grade;
pub mod numbers;
pub mod readings;
pub mod within;

#[cfg(test)]
mod tests {
    use crate::numbers::{
        ClassNumber, CulmNumber, EffectiveLength, GradeNumber, MemberNumber, Percent,
    };

    #[test]
    fn every_number_begins_and_ends_where_the_rules_say(rt: HostRuntime) {
        assert!(rt; GradeNumber::in_field(2, 0).is_err() && GradeNumber::in_field(2, 1).is_ok());
        assert!(rt; GradeNumber::in_field(2, 8).is_ok() && GradeNumber::in_field(2, 9).is_err());
        assert!(rt; ClassNumber::in_field(2, 0).is_err() && ClassNumber::in_field(2, 1).is_ok());
        assert!(rt; ClassNumber::in_field(2, 3).is_ok() && ClassNumber::in_field(2, 4).is_err());
        assert!(rt; CulmNumber::in_field(2, 0).is_err() && CulmNumber::in_field(2, 1).is_ok());
        assert!(rt;
            CulmNumber::in_field(2, 4096).is_ok() && CulmNumber::in_field(2, 4097).is_err()
        );
        assert!(rt; MemberNumber::in_field(2, 0).is_err() && MemberNumber::in_field(2, 1).is_ok());
        assert!(rt;
            MemberNumber::in_field(2, 9999).is_ok() && MemberNumber::in_field(2, 10000).is_err()
        );
        assert!(rt; Percent::in_field(3, 9).is_err() && Percent::in_field(3, 10).is_ok());
        assert!(rt; Percent::in_field(3, 100).is_ok() && Percent::in_field(3, 101).is_err());
        assert!(rt;
            EffectiveLength::in_field(3, 499).is_err() && EffectiveLength::in_field(3, 500).is_ok()
        );
        assert!(rt;
            EffectiveLength::in_field(3, 8000).is_ok()
                && EffectiveLength::in_field(3, 8001).is_err()
        );
    }
}

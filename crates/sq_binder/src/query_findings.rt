//! The findings of binding in a part of a query besides its tree (ISO/IEC 9075:1992, 4.26, 6.3, 6.4 and 7.11).

ghost use Rattle.std.specs.Prelude.{◌≡◌};
ghost use Rattle.sq_binding.specs.QueryFindings as spec;
ghost use Rattle.sq_binder.specs.Bound.{findings_of};
ghost use Rattle.sq_binder.specs.Found.{query_findings_of, with_can_fail};

use crate::findings::Findings;

/// The findings in a part of a query.
#[derive(Clone, Copy)]
pub struct QueryFindings {
    /// The findings in its value expressions.
    pub values: Findings,
    pub has_subquery: bool,
    /// Whether SELECT is not held on a table that is read.
    pub lacks_privilege: bool,
    /// Whether SELECT is not held with the grant option on a table that is read.
    pub lacks_grant_option: bool,
}

impl QueryFindings {
    /// Nothing is found.
    pub const NOTHING: QueryFindings = QueryFindings {
        values: Findings::NONE,
        has_subquery: false,
        lacks_privilege: false,
        lacks_grant_option: false,
    };

    /// The findings in value expressions alone.
    pub fn of_values(values: Findings) -> QueryFindings
        ensures { query_findings_of result ≡ spec.of_values (findings_of values) }
    {
        QueryFindings {
            values,
            ..QueryFindings::NOTHING
        }
    }

    /// The findings in two parts.
    pub fn and(self, other: QueryFindings) -> QueryFindings
        ensures { query_findings_of result ≡ spec.both (query_findings_of self) (query_findings_of other) }
    {
        QueryFindings {
            values: self.values.and(other.values),
            has_subquery: self.has_subquery || other.has_subquery,
            lacks_privilege: self.lacks_privilege || other.lacks_privilege,
            lacks_grant_option: self.lacks_grant_option || other.lacks_grant_option,
        }
    }

    /// The findings in a part whose evaluation may answer a status.
    #[tactic(auto, using(crate::proofs::OneByOne::Behind::with_a_status))]
    pub fn failing(self) -> QueryFindings
        ensures { query_findings_of result ≡ spec.both (query_findings_of self) spec.a_status }
    {
        QueryFindings {
            values: self.values.failing(),
            ..self
        }
    }

    /// The findings in a part, with the knowledge whether its evaluation may answer a status.
    pub fn with_can_fail(self, can_fail: bool) -> QueryFindings
        ensures { query_findings_of result ≡ with_can_fail can_fail (query_findings_of self) }
    {
        QueryFindings {
            values: Findings {
                can_fail,
                ..self.values
            },
            ..self
        }
    }

    /// The findings in a subquery, seen from the query around it.
    pub fn of_subquery(self) -> QueryFindings
        ensures { query_findings_of result ≡ spec.of_subquery (query_findings_of self) }
    {
        QueryFindings {
            values: self.values.of_subquery(),
            has_subquery: true,
            ..self
        }
    }
}

//! What refusals say.
use super::*;
use point_kit::ExportFault;
use std::test::Fail;

// Each reason, and its whole text at place 5.
const REQUESTS: [(RequestReason, &str); 27] = [
    (
        RequestReason::Malformed,
        "byte 5 begins no field that can stand there",
    ),
    (RequestReason::NotText, "the text at byte 5 is not UTF-8"),
    (
        RequestReason::TooLongText,
        "a text at byte 5 has more than 1024 bytes",
    ),
    (RequestReason::NoService, "resource 5 names no service"),
    (RequestReason::NoInstance, "resource 5 names no instance"),
    (
        RequestReason::NotUuid,
        "the instance of resource 5 is no UUID",
    ),
    (RequestReason::ScopeTwice, "scope 5 comes in two versions"),
    (
        RequestReason::ExponentialHistogram,
        "metric 5 is an exponential histogram",
    ),
    (RequestReason::Summary, "metric 5 is a summary"),
    (RequestReason::NoData, "metric 5 has no data"),
    (RequestReason::Delta, "metric 5 is told as deltas"),
    (RequestReason::NoTemporality, "metric 5 has no temporality"),
    (
        RequestReason::NoRecordedValue,
        "point 5 has no recorded value",
    ),
    (
        RequestReason::UnknownStart,
        "the start of point 5 is not known",
    ),
    (
        RequestReason::FloatValue,
        "the value of point 5 is a double",
    ),
    (RequestReason::NoValue, "point 5 has no value"),
    (RequestReason::NoSum, "point 5 has no sum"),
    (
        RequestReason::NotWhole,
        "a double of point 5 is no whole number",
    ),
    (RequestReason::Inexact, "a double of point 5 is not exact"),
    (
        RequestReason::BadBounds,
        "the bounds of point 5 do not rise",
    ),
    (RequestReason::HalfRange, "point 5 has half a range"),
    (
        RequestReason::TooManyAttributes,
        "point 5 has more than 128 attributes",
    ),
    (
        RequestReason::EmptyKey,
        "an attribute of point 5 has no key",
    ),
    (
        RequestReason::AttributeTwice,
        "two attributes of point 5 have one key",
    ),
    (
        RequestReason::AttributeValue,
        "an attribute of point 5 has another value",
    ),
    (
        RequestReason::BadExport(ExportFault::KeyTwice(2)),
        "export 5: point 2 has the key of an earlier point",
    ),
    (RequestReason::NoMemory, "no memory"),
];

const EXPORTS: [(OtlpFault, &str); 5] = [
    (
        OtlpFault::BadBounds(5),
        "the bounds of point 5 do not rise as doubles",
    ),
    (
        OtlpFault::TooLongText,
        "a service, a scope, a name or a unit has more than 1024 bytes",
    ),
    (
        OtlpFault::TooManyAttributes(5),
        "point 5 has more than 128 attributes",
    ),
    (
        OtlpFault::TooLong,
        "the request has more than 2147483647 bytes",
    ),
    (OtlpFault::NoMemory, "no memory"),
];

#[test]
fn each_refusal_says_why(rt: HostRuntime) -> Result<(), Fail> {
    let alloc = rt.alloc();
    for (why, text) in REQUESTS {
        let fault = why.at(5);
        assert_eq!(rt; format!(in alloc; "{fault}")?.as_str(), text);
    }
    for (fault, text) in EXPORTS {
        assert_eq!(rt; format!(in alloc; "{fault}")?.as_str(), text);
    }
    Ok(())
}

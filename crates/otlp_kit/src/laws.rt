//! What follows from the contracts of writing and reading.
ghost use Rattle.std.specs.Prelude.{◌≡◌, [], ◌∷◌, Ok, None};
ghost use Rattle.point_kit.specs.declared.export.Export.{Export};
ghost use Rattle.otlp_kit.specs.Reading.{exports_read, said_of};
ghost use Rattle.otlp_kit.specs.Refusals.{otlp_fault};
ghost use Rattle.otlp_kit.specs.Request.{request};
ghost use Rattle.otlp_kit.specs.Sent.{IsExport, IsSaid};

/// Reading the request of an export gives that export: its writer, its start and time, and its points in their order.
///
/// That asks for a point, a start above 0 of each sum and histogram, and sums, bounds and ranges of histograms below 2^53 in size.
/// What `IsExport` asks is true of every export: numbers of 64 bits, texts in UTF-8, attributes in the order of their keys.
pub fn comes_back()
    ensures { (e : Export) → IsExport e → IsSaid e → otlp_fault e ≡ None → exports_read (request e) ≡ Ok (said_of e ∷ []) }
{}

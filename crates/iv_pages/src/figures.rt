//! Figures in the text form of Prometheus: `push_counter`, `push_gauge`, `push_histogram`, and `push_sample` for more of one name.
ghost use Rattle.std.specs.Prelude.{◌≡◌, ◌++◌, ◌∷◌, codes, decimal, drop, flat_map, map, OnOk};
ghost use Rattle.iv_pages.specs.Figures.{bucket_line, counted_line, counter_text, end_line, end_of_millionths, further_labels, gauge_text, heading, help_byte, histogram_text, label_byte, label_text, labels_text, named_line, sample_line, sum_line};
ghost use Rattle.iv_pages.specs.Shown.{bucket_of, label_of, labels_of};

use itoa::Buffer;
use std::alloc::AllocError;

/// A label of a figure.
#[derive(Clone, Copy)]
pub struct Label<'a> {
    /// Letters, digits and underscores.
    pub name: &'a str,
    /// Any text.
    pub value: &'a str,
}

/// A bucket of a histogram.
#[derive(Clone, Copy)]
pub struct Bucket<'a> {
    /// A number, in the unit of the name.
    pub bound: &'a str,
    /// How many values are at most that.
    pub count: u64,
}

/// What the figures of one name are.
#[derive(Clone, Copy)]
pub struct Metric<'a> {
    /// Letters, digits, underscores and colons. Its end says the unit.
    pub name: &'a str,
    /// What they tell.
    pub help: &'a str,
}

/// Appends a byte of a label's value.
fn push_label_byte(out: &mut Vec<u8>, byte: u8) -> Result<(), AllocError>
    ensures { OnOk result (out.new.items ≡ out.old.items ++ label_byte byte) }
{
    match byte {
        b'\\' => out.extend_from_slice(b"\\\\")?,
        b'"' => out.extend_from_slice(b"\\\"")?,
        b'\n' => out.extend_from_slice(b"\\n")?,
        _ => out.push(byte)?,
    }
    Ok(())
}

/// Appends a byte of what figures tell.
fn push_help_byte(out: &mut Vec<u8>, byte: u8) -> Result<(), AllocError>
    ensures { OnOk result (out.new.items ≡ out.old.items ++ help_byte byte) }
{
    match byte {
        b'\\' => out.extend_from_slice(b"\\\\")?,
        b'\n' => out.extend_from_slice(b"\\n")?,
        _ => out.push(byte)?,
    }
    Ok(())
}

/// Appends a label's value.
fn push_value(out: &mut Vec<u8>, value: &[u8]) -> Result<(), AllocError>
    ensures { OnOk result (out.new.items ≡ out.old.items ++ flat_map label_byte value.now) }
{
    for byte in value {
        push_label_byte(out, *byte)?;
    }
    Ok(())
}

/// Appends what figures tell.
fn push_help(out: &mut Vec<u8>, help: &[u8]) -> Result<(), AllocError>
    ensures { OnOk result (out.new.items ≡ out.old.items ++ flat_map help_byte help.now) }
{
    for byte in help {
        push_help_byte(out, *byte)?;
    }
    Ok(())
}

/// Appends a label.
fn push_label(out: &mut Vec<u8>, label: &Label<'_>) -> Result<(), AllocError>
    ensures { OnOk result (out.new.items ≡ out.old.items ++ label_text (label_of label.now)) }
{
    out.extend_from_slice(label.name.as_bytes())?;
    out.extend_from_slice(b"=\"")?;
    push_value(out, label.value.as_bytes())?;
    out.push(b'"')?;
    Ok(())
}

/// Appends labels, each after a comma.
fn push_further(out: &mut Vec<u8>, labels: &[Label<'_>]) -> Result<(), AllocError>
    ensures { OnOk result (out.new.items ≡ out.old.items ++ further_labels (labels_of labels.now)) }
{
    for label in labels {
        out.push(b',')?;
        push_label(out, label)?;
    }
    Ok(())
}

/// Appends labels between braces, if there are any.
fn push_labels(out: &mut Vec<u8>, labels: &[Label<'_>]) -> Result<(), AllocError>
    ensures { OnOk result (out.new.items ≡ out.old.items ++ labels_text (labels_of labels.now)) }
{
    match labels {
        [] => Ok(()),
        [first, rest @ ..] => {
            out.push(b'{')?;
            push_label(out, first)?;
            push_further(out, rest)?;
            out.push(b'}')?;
            Ok(())
        }
    }
}

/// Appends a space, a number and a newline.
fn push_number(out: &mut Vec<u8>, value: u64) -> Result<(), AllocError>
    ensures { OnOk result (out.new.items ≡ out.old.items ++ end_line value) }
{
    out.push(b' ')?;
    out.extend_from_slice(Buffer::new().format(value).as_bytes())?;
    out.push(b'\n')?;
    Ok(())
}

/// Appends what is behind the first byte.
fn push_rest(out: &mut Vec<u8>, bytes: &[u8]) -> Result<(), AllocError>
    ensures { OnOk result (out.new.items ≡ out.old.items ++ drop 1 bytes.now) }
{
    match bytes {
        [] => Ok(()),
        [_, rest @ ..] => {
            out.extend_from_slice(rest)?;
            Ok(())
        }
    }
}

/// Appends a space, millionths as a decimal fraction, and a newline.
fn push_millionths(out: &mut Vec<u8>, value: u64) -> Result<(), AllocError>
    ensures { OnOk result (out.new.items ≡ out.old.items ++ end_of_millionths value) }
{
    out.push(b' ')?;
    out.extend_from_slice(Buffer::new().format(value / 1_000_000).as_bytes())?;
    out.push(b'.')?;
    let digits = 1_000_000 + value % 1_000_000;
    push_rest(out, Buffer::new().format(digits).as_bytes())?;
    out.push(b'\n')?;
    Ok(())
}

/// Appends the line of a figure whose name has an ending.
fn push_named(
    out: &mut Vec<u8>,
    name: &str,
    ending: &[u8],
    labels: &[Label<'_>],
    value: u64,
) -> Result<(), AllocError>
    ensures { OnOk result (out.new.items ≡ out.old.items ++ named_line name.now ending.now (labels_of labels.now) value) }
{
    out.extend_from_slice(name.as_bytes())?;
    out.extend_from_slice(ending)?;
    push_labels(out, labels)?;
    push_number(out, value)?;
    Ok(())
}

/// Appends the lines that say what the figures of a name are.
fn push_heading(out: &mut Vec<u8>, metric: &Metric<'_>, kind: &[u8]) -> Result<(), AllocError>
    ensures { OnOk result (out.new.items ≡ out.old.items ++ heading metric.now.name.now metric.now.help.now kind.now) }
{
    out.extend_from_slice(b"# HELP ")?;
    out.extend_from_slice(metric.name.as_bytes())?;
    out.push(b' ')?;
    push_help(out, metric.help.as_bytes())?;
    out.extend_from_slice(b"\n# TYPE ")?;
    out.extend_from_slice(metric.name.as_bytes())?;
    out.push(b' ')?;
    out.extend_from_slice(kind)?;
    out.push(b'\n')?;
    Ok(())
}

/// Appends the line of one more figure of a name, after a counter's or a gauge's, by other labels.
///
/// # Errors
/// `AllocError` if a growth of memory was refused, as of each function here; what was appended then is not to be sent.
pub fn push_sample(
    out: &mut Vec<u8>,
    name: &str,
    labels: &[Label<'_>],
    value: u64,
) -> Result<(), AllocError>
    ensures { OnOk result (out.new.items ≡ out.old.items ++ sample_line name.now (labels_of labels.now) value) }
{
    push_named(out, name, b"", labels, value)
}

/// Appends what a counter is, and a figure of it.
///
/// # Errors
/// As of `push_sample`.
pub fn push_counter(
    out: &mut Vec<u8>,
    metric: &Metric<'_>,
    labels: &[Label<'_>],
    value: u64,
) -> Result<(), AllocError>
    ensures { OnOk result (out.new.items ≡ out.old.items ++ counter_text metric.now.name.now metric.now.help.now (labels_of labels.now) value) }
{
    push_heading(out, metric, b"counter")?;
    push_sample(out, metric.name, labels, value)?;
    Ok(())
}

/// Appends what a gauge is, and a figure of it.
///
/// # Errors
/// As of `push_sample`.
pub fn push_gauge(
    out: &mut Vec<u8>,
    metric: &Metric<'_>,
    labels: &[Label<'_>],
    value: u64,
) -> Result<(), AllocError>
    ensures { OnOk result (out.new.items ≡ out.old.items ++ gauge_text metric.now.name.now metric.now.help.now (labels_of labels.now) value) }
{
    push_heading(out, metric, b"gauge")?;
    push_sample(out, metric.name, labels, value)?;
    Ok(())
}

/// Appends the line of a bucket, by the text of its bound.
fn push_bound(
    out: &mut Vec<u8>,
    name: &str,
    labels: &[Label<'_>],
    bound: &[u8],
    count: u64,
) -> Result<(), AllocError>
    ensures { OnOk result (out.new.items ≡ out.old.items ++ bucket_line name.now (labels_of labels.now) bound.now count) }
{
    out.extend_from_slice(name.as_bytes())?;
    out.extend_from_slice(b"_bucket{le=\"")?;
    out.extend_from_slice(bound)?;
    out.push(b'"')?;
    push_further(out, labels)?;
    out.push(b'}')?;
    push_number(out, count)?;
    Ok(())
}

/// Appends the line of a bucket.
fn push_bucket(
    out: &mut Vec<u8>,
    name: &str,
    labels: &[Label<'_>],
    bucket: &Bucket<'_>,
) -> Result<(), AllocError>
    ensures { OnOk result (out.new.items ≡ out.old.items ++ counted_line name.now (labels_of labels.now) (bucket_of bucket.now)) }
{
    push_bound(out, name, labels, bucket.bound.as_bytes(), bucket.count)?;
    Ok(())
}

/// Appends the lines of buckets.
fn push_buckets(
    out: &mut Vec<u8>,
    name: &str,
    labels: &[Label<'_>],
    buckets: &[Bucket<'_>],
) -> Result<(), AllocError>
    ensures { OnOk result (out.new.items ≡ out.old.items ++ flat_map (counted_line name.now (labels_of labels.now)) (map bucket_of buckets.now)) }
{
    for bucket in buckets {
        push_bucket(out, name, labels, bucket)?;
    }
    Ok(())
}

/// Appends the line of a sum, which is in millionths.
fn push_sum(out: &mut Vec<u8>, name: &str, labels: &[Label<'_>], sum: u64) -> Result<(), AllocError>
    ensures { OnOk result (out.new.items ≡ out.old.items ++ sum_line name.now (labels_of labels.now) sum) }
{
    out.extend_from_slice(name.as_bytes())?;
    out.extend_from_slice(b"_sum")?;
    push_labels(out, labels)?;
    push_millionths(out, sum)?;
    Ok(())
}

/// Appends what a histogram is, and one of it: of each bound, in rising order, how many values are at most that; how many there are, and
/// their sum, which is given in millionths of the name's unit.
///
/// # Errors
/// As of `push_sample`.
pub fn push_histogram(
    out: &mut Vec<u8>,
    metric: &Metric<'_>,
    labels: &[Label<'_>],
    buckets: &[Bucket<'_>],
    count: u64,
    sum: u64,
) -> Result<(), AllocError>
    ensures { OnOk result (out.new.items ≡ out.old.items
        ++ histogram_text metric.now.name.now metric.now.help.now (labels_of labels.now) (map bucket_of buckets.now) count sum) }
{
    push_heading(out, metric, b"histogram")?;
    push_buckets(out, metric.name, labels, buckets)?;
    push_bound(out, metric.name, labels, b"+Inf", count)?;
    push_sum(out, metric.name, labels, sum)?;
    push_named(out, metric.name, b"_count", labels, count)?;
    Ok(())
}

//! What holds of every record. Each function here does nothing: its contract is the law.

ghost use Rattle.nb_body.specs.Laws as law;

/// A law: what was spelled of an endorsed order is read as that.
pub fn endorsed_reads_back()
    ensures { law.EndorsedReadsBack }
{}

/// A law: what was read as an endorsed order is spelled as those bytes, and is within its limits.
pub fn endorsed_spells_back()
    ensures { law.EndorsedSpellsBack }
{}

/// A law: what was spelled of a status query is read as that.
pub fn query_reads_back()
    ensures { law.QueryReadsBack }
{}

/// A law: what was read as a status query is spelled as those bytes, and is within its limits.
pub fn query_spells_back()
    ensures { law.QuerySpellsBack }
{}

/// A law: what was spelled of an enrolment is read as that.
pub fn enrolment_reads_back()
    ensures { law.EnrolmentReadsBack }
{}

/// A law: what was read as an enrolment is spelled as those bytes, and is within its limits.
pub fn enrolment_spells_back()
    ensures { law.EnrolmentSpellsBack }
{}

/// A law: what was spelled of a funding is read as that.
pub fn funding_reads_back()
    ensures { law.FundingReadsBack }
{}

/// A law: what was read as a funding is spelled as those bytes, and is within its limits.
pub fn funding_spells_back()
    ensures { law.FundingSpellsBack }
{}

/// A law: what was spelled of a request for a price is read as that.
pub fn price_request_reads_back()
    ensures { law.PriceRequestReadsBack }
{}

/// A law: what was read as a request for a price is spelled as those bytes, and is within its limits.
pub fn price_request_spells_back()
    ensures { law.PriceRequestSpellsBack }
{}

/// A law: what was spelled of a quote is read as that.
pub fn quote_reads_back()
    ensures { law.QuoteReadsBack }
{}

/// A law: what was read as a quote is spelled as those bytes, and is within its limits.
pub fn quote_spells_back()
    ensures { law.QuoteSpellsBack }
{}

/// A law: what was spelled of a request for goods is read as that.
pub fn goods_request_reads_back()
    ensures { law.GoodsRequestReadsBack }
{}

/// A law: what was read as a request for goods is spelled as those bytes, and is within its limits.
pub fn goods_request_spells_back()
    ensures { law.GoodsRequestSpellsBack }
{}

/// A law: what was spelled of a head of goods is read as that.
pub fn goods_head_reads_back()
    ensures { law.GoodsHeadReadsBack }
{}

/// A law: what was read as a head of goods is spelled as those bytes, and is within its limits.
pub fn goods_head_spells_back()
    ensures { law.GoodsHeadSpellsBack }
{}

/// A law: what was spelled of an order for its merchant is read as that.
pub fn payment_request_reads_back()
    ensures { law.PaymentRequestReadsBack }
{}

/// A law: what was read as an order for its merchant is spelled as those bytes, and is within its limits.
pub fn payment_request_spells_back()
    ensures { law.PaymentRequestSpellsBack }
{}

/// A law: two records of one sort with one spelling are one.
pub fn one_spelling()
    ensures endorsed { law.OneEndorsed }
    ensures query { law.OneQuery }
    ensures enrolment { law.OneEnrolment }
    ensures funding { law.OneFunding }
    ensures price_request { law.OnePriceRequest }
    ensures quote { law.OneQuote }
    ensures goods_request { law.OneGoodsRequest }
    ensures goods_head { law.OneGoodsHead }
    ensures payment_request { law.OnePaymentRequest }
{}

/// A law: how many bytes a record of each sort has.
pub fn lengths()
    ensures endorsed { law.EndorsedIsAsLong }
    ensures query { law.QueryIsAsLong }
    ensures enrolment { law.EnrolmentIsAsLong }
    ensures funding { law.FundingIsAsLong }
    ensures price_request { law.PriceRequestIsAsLong }
    ensures quote { law.QuoteIsAsLong }
    ensures goods_request { law.GoodsRequestIsAsLong }
    ensures goods_head { law.GoodsHeadIsAsLong }
    ensures payment_request { law.PaymentRequestIsAsLong }
{}

/// A law: the roles and limits in numbers.
pub fn limits()
    ensures bodies { law.BodyLimitsAre }
    ensures texts { law.TextLimitsAre }
{}
